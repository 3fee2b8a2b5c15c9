// The numbers and bits in a block's bytes.
ghost use Rattle.std.specs.Prelude.{◌≡◌, ◌≤◌, ◌<◌, length, slice_index};
ghost use Rattle.blocks.specs.Disk.{block_at};
ghost use Rattle.blocks.specs.Block.{block_size};
ghost use Rattle.model.specs.Format.{bits_per_block};
ghost use Rattle.model.specs.Fields.{words_of, has_bit};

use blocks::Block;
use layout::bitmap::bit;
use layout::fields::read_u32;

/// Whether the bit of number `k` is set. Each byte holds eight, its lowest bit first.
pub fn has_bit(block: &Block, k: u32) -> bool
    requires { k < bits_per_block }
    ensures { result ≡ has_bit block.now k }
{
    bit(block, k)
}

/// The 1024 bytes of block `b`, and none past the image's end.
pub fn bytes_at(image: &[Block], b: u32) -> &[u8]
    ensures value { result.now ≡ block_at image.now b }
    ensures len { length result.now ≤ block_size }
{
    match image.get(b as usize) {
        Some(block) => block.as_slice(),
        None => &[],
    }
}

/// The number at a place among those of four bytes each that block `b` holds; 0 where there is
/// none.
#[tactic(auto, using(model::specs::Lemmas::Words::word_at, model::specs::Lemmas::Words::word_past))]
pub fn word_in(image: &[Block], b: u32, place: u32) -> u32
    ensures { result ≡ slice_index (words_of (block_at image.now b)) place }
{
    let bytes = bytes_at(image, b);
    let at = 4 * place as usize;
    if at + 4 > bytes.len() {
        return 0;
    }
    read_u32(bytes, at)
}
