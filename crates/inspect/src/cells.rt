// What each block of an image is, and whose, for a picture of them.
ghost use Rattle.std.specs.Prelude.{◌≡◌, ◌==◌, find, IfOk, None};
ghost use Rattle.blocks.specs.Calls.{OnlyReads};
ghost use Rattle.model.specs.Log.{recovered};
ghost use Rattle.model.specs.Verdict.{verdict};
ghost use Rattle.inspect.specs.Cells.{cells_among, cells_of, owner_of};
ghost use Rattle.inspect.specs.Gathering.{KeepsCount};
ghost use Rattle.inspect.specs.Owned.{owned_by_all};
ghost use Rattle.inspect.specs.Signs.{owner_among, signs_of};

use crate::fault::GatherFault;
use crate::owned::{Owned, owned_by_all};
use blocks::{Block, Disk, NoMemory};
use messages::{Cell, Owner};
use offline::Recovered;
use std::alloc::Global;

// The blocks of a disk that was checked, the first of them block 0. These are their signs.
#[tactic(auto, using(blocks::specs::Lemmas::Reads::reads_then))]
pub fn gather_cells<D: Disk>(
    alloc: Global,
    disk: &mut D,
    signs: &[u8],
) -> Result<Vec<Cell>, GatherFault>
    requires sound { verdict (D.image disk.old) ≡ None }
    requires signs { signs.now ≡ signs_of (D.image disk.old) }
    ensures cells { IfOk result (λ cells. cells.items ≡ cells_of (D.image disk.old)) }
    ensures reads { OnlyReads D.Disk disk.old disk.new }
    ensures faults { KeepsCount result (D.fault_count disk.old) (D.fault_count disk.new) }
{
    let owned = gather_owned(alloc, disk)?;
    Ok(cells_among(alloc, signs, owned.as_slice())?)
}

// The blocks that the files of a disk own that was checked.
#[tactic(auto, using(blocks::specs::Lemmas::Reads::reads_none, blocks::specs::Lemmas::Reads::reads_then))]
fn gather_owned<D: Disk>(alloc: Global, disk: &mut D) -> Result<Vec<Owned>, GatherFault>
    requires { verdict (D.image disk.old) ≡ None }
    ensures owned { IfOk result (λ owned. owned.items
        ≡ owned_by_all (recovered (D.image disk.old))) }
    ensures reads { OnlyReads D.Disk disk.old disk.new }
    ensures faults { KeepsCount result (D.fault_count disk.old) (D.fault_count disk.new) }
{
    let mut block = Block::zeroed(alloc)?;
    let image = Recovered::open_checked(disk, &mut block)?;
    owned_by_all(alloc, disk, &image)
}

// The blocks with these signs, of which files own some.
fn cells_among(alloc: Global, signs: &[u8], owned: &[Owned]) -> Result<Vec<Cell>, NoMemory>
    ensures { IfOk result (λ cells. cells.items ≡ cells_among signs.now owned.now) }
{
    let mut cells = Vec::new(alloc);
    for b in 0..signs.len() {
        cells.push(Cell {
            block: b as u64,
            sign: signs[b],
            owner: owner_of(owned, b),
        })?;
    }
    Ok(cells)
}

// Which file owns block b.
fn owner_of(owned: &[Owned], b: usize) -> Option<Owner>
    ensures { result ≡ owner_of (owner_among owned.now b) }
{
    match owned.iter().find(|block| block.block as usize == b) {
        Some(block) => Some(Owner { file: block.file }),
        None => None,
    }
}
