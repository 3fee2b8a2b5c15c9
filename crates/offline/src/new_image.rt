// The blocks of a new image.
ghost use Rattle.std.specs.Prelude.{◌≡◌, ◌≤◌, IfOk};
ghost use Rattle.blocks.specs.Block.{zero_block};
ghost use Rattle.model.specs.Layout.{meta_count, planned_super};
ghost use Rattle.model.specs.Codec.{super_block, first_bits, made_block};

use blocks::{Block, NoMemory};
use layout::bitmap::set_bit;
use layout::{bitmap_block, meta_count, superblock};
use model::types::{Form, Super};
use std::alloc::Global;

// A new image's blocks: the superblock, the bitmap, and the one of zeroes that all others are.
#[derive(Drop)]
pub(crate) struct NewImage {
    pub(crate) form: Form,
    pub(crate) size: u32,
    pub(crate) ninodes: u32,
    superblock: Block,
    map: Block,
    zeroes: Block,
    ghost has_super: { superblock ≡ super_block form (planned_super size ninodes) },
    ghost has_map: { map ≡ first_bits (meta_count size ninodes) },
    ghost has_zeroes: { zeroes ≡ zero_block },
}

impl NewImage {
    // The blocks of the image of that form with these fields.
    pub(crate) fn new(alloc: Global, fields: &Super, form: Form) -> Result<NewImage, NoMemory>
        requires planned { fields.now ≡ planned_super fields.now.size fields.now.ninodes }
        requires few { meta_count fields.now.size fields.now.ninodes ≤ 8192 }
        ensures { IfOk result (λ image. (image.form ≡ form)
            × (image.size ≡ fields.now.size) × (image.ninodes ≡ fields.now.ninodes)) }
    {
        let zeroes = Block::zeroed(alloc)?;
        let map = marked(alloc, meta_count(fields.size, fields.ninodes))?;
        let mut superblock = Block::zeroed(alloc)?;
        superblock::write(fields, form, &mut superblock);
        Ok(NewImage {
            form,
            size: fields.size,
            ninodes: fields.ninodes,
            superblock,
            map,
            zeroes,
        })
    }

    pub(crate) fn block(&self, b: u32) -> &Block
        ensures { result.now ≡ made_block self.now.form self.now.size self.now.ninodes b }
    {
        if b == 1 {
            &self.superblock
        } else if b == bitmap_block(self.ninodes) {
            &self.map
        } else {
            &self.zeroes
        }
    }
}

// A bitmap whose first `count` bits are set.
#[tactic(auto, using(model::specs::Lemmas::Codecs::first_bits_none, model::specs::Lemmas::Codecs::first_bits_more))]
fn marked(alloc: Global, count: u32) -> Result<Block, NoMemory>
    requires { count ≤ 8192 }
    ensures { IfOk result (λ block. block ≡ first_bits count) }
{
    let mut block = Block::zeroed(alloc)?;
    for k in 0..count {
        set_bit(&mut block, k);
    }
    Ok(block)
}
