// Which of an inode's addresses a check objects to.
ghost use Rattle.std.specs.Prelude.{◌≡◌, ◌<◌, ◌≤◌, ℕ, true, false, length, slice_index, IfSome};
ghost use Rattle.second_lines.specs.Addresses.{is_wrong, needed_of, until};

// What a list of addresses has to be: the first so many of them are there, and each that is there is
// that of a data block, from the first of these up to the image's end.
#[derive(Clone, Copy)]
pub struct Wanted {
    pub needed: u32,
    pub first: u32,
    pub end: u32,
}

// How many addresses of a list a file of that many bytes needs: the first leads to the file's block
// `begin`, and each to `reach` blocks, at least 1.
pub fn needed_of(size: u32, begin: u32, reach: u32) -> u32
    requires { 0 < reach }
    ensures { result ≡ needed_of size begin reach }
{
    let count = size.div_ceil(1024);
    count.saturating_sub(begin).div_ceil(reach)
}

// The place of the first of these addresses that isn't as it has to be.
pub fn wrong_place(addresses: &[u32], wanted: Wanted) -> Option<u32>
    requires { length addresses.now ≤ 256 }
    ensures inside { IfSome result (λ place. place < length addresses.now) }
    ensures wrong { IfSome result
        (λ place. is_wrong wanted place (slice_index addresses.now place) ≡ true) }
    ensures first { (k : ℕ) → k < until (length addresses.now) result
        → is_wrong wanted k (slice_index addresses.now k) ≡ false }
{
    for (k, address) in addresses.iter().enumerate() {
        if is_wrong(wanted, k as u32, *address) {
            return Some(k as u32);
        }
    }
    None
}

// Whether an address at a place isn't as it has to be.
fn is_wrong(wanted: Wanted, place: u32, address: u32) -> bool
    ensures { result ≡ is_wrong wanted place address }
{
    if address == 0 {
        place < wanted.needed
    } else {
        address < wanted.first || address >= wanted.end
    }
}
