// How many blocks a file needs, and how many are free.
ghost use Rattle.std.specs.Prelude.{◌≡◌, ◌≤◌, ◌^◌, not, count_by};
ghost use Rattle.std.specs.List.{range_with_len};
ghost use Rattle.model.specs.Fields.{has_bit};
ghost use Rattle.model.specs.Format.{bits_per_block};
ghost use Rattle.transfer.specs.Needs.{address_blocks, fits_twice, needed_blocks};

use blocks::{BLOCK_SIZE, Block};
use layout::bitmap::bit;
use layout::{ADDRESSES_PER_BLOCK, Form, direct_count};

/// How many blocks a file of that many bytes needs, blocks of addresses among them.
pub fn needed_blocks(form: Form, size: u32) -> u32
    ensures count { result ≡ needed_blocks form size }
    ensures few { result ≤ 2 ^ 23 }
{
    let count = size.div_ceil(BLOCK_SIZE as u32);
    count + address_blocks(form, count)
}

// How many of these are blocks of addresses, where that many hold data.
fn address_blocks(form: Form, count: u32) -> u32
    requires { count ≤ 2 ^ 22 }
    ensures count { result ≡ address_blocks form count }
    ensures few { result ≤ 2 ^ 22 }
{
    let direct = direct_count(form) as u32;
    let entries = ADDRESSES_PER_BLOCK as u32;
    if count <= direct {
        0
    } else if count <= direct + entries {
        1
    } else {
        2 + (count - direct - entries).div_ceil(entries)
    }
}

// How many of that many blocks the bitmap says are free.
pub fn count_free(bitmap: &Block, size: u32) -> u32
    requires { size ≤ bits_per_block }
    ensures count { result
        ≡ count_by (λ b. not (has_bit bitmap.now b)) (range_with_len 0 size) }
    ensures few { result ≤ size }
{
    let mut free = 0;
    for b in 0..size {
        if !bit(bitmap, b) {
            free += 1;
        }
    }
    free
}

// Whether a file of that many bytes fits in the free blocks, and once more when that many others are
// given up, too.
pub fn fits_twice(form: Form, size: u32, free: u32, old: u32) -> bool
    requires small { free ≤ 2 ^ 13 }
    requires few { old ≤ 2 ^ 23 }
    ensures { result ≡ fits_twice (needed_blocks form size) free old }
{
    let needed = needed_blocks(form, size);
    needed <= free && 2 * needed <= free + old
}
