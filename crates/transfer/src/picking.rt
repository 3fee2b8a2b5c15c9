// Which files of a damaged image are rescued.
ghost use Rattle.std.specs.Prelude.{◌≡◌, IfOk, IfErr, OnOk};
ghost use Rattle.blocks.specs.Calls.{OnlyReads};
ghost use Rattle.blocks.specs.Disk.{Image, IsImage};
ghost use Rattle.model.specs.Log.{recovered};
ghost use Rattle.model.specs.Places.{numbers_of};
ghost use Rattle.offline.specs.Clean.{Sorts};
ghost use Rattle.offline.specs.Recovered.{IsRecoveredOf};
ghost use Rattle.transfer.specs.Rescues.{IsUnopened, TellsRescued};
ghost use Rattle.transfer.specs.Source.{CopiesClean, IsSourceOf};

use crate::fault::CopyFault;
use crate::source::{Source, cut_kinds};
use blocks::{Block, Disk};
use offline::laws::clean_files_are_whole;
use offline::{Recovered, Sorted, sort_numbers};
use std::alloc::Global;

/// Which files of an image were rescued.
#[derive(Drop)]
pub struct Rescued {
    /// The numbers of those that were, in order.
    pub clean: Vec<u32>,
    /// The used numbers that were left out, in order.
    pub left: Vec<u32>,
}

/// Opens an image, and sorts its numbers by whether their files are whole.
pub(crate) fn read_clean<D: Disk>(
    alloc: Global,
    old: &mut D,
) -> Result<(Source, Rescued), CopyFault>
    ensures source { IfOk result (λ read. IsSourceOf (D.image old.old) read.0) }
    ensures clean { IfOk result (λ read. CopiesClean (D.image old.old) read.0) }
    ensures told { IfOk result (λ read. TellsRescued (recovered (D.image old.old)) read.1) }
    ensures refused { IfErr result (IsUnopened D.Disk old.old old.new) }
    ensures reads { OnlyReads D.Disk old.old old.new }
    ensures faults { OnOk result (D.fault_count old.new ≡ D.fault_count old.old) }
{
    let mut block = Block::zeroed(alloc)?;
    let image = match Recovered::open(old, &mut block) {
        Ok(image) => image,
        Err(fault) => return Err(CopyFault::Old(fault)),
    };
    let sorted = match sort_numbers(alloc, old, &image, &mut block) {
        Ok(sorted) => sorted,
        Err(fault) => return Err(CopyFault::Old(fault)),
    };
    Ok(clean_source(image, sorted))
}

// What is copied of an image whose numbers are sorted, and what is told of it.
fn clean_source(image: Recovered, sorted: Sorted) -> (Source, Rescued)
    ensures source { (x : Image) → IsImage x → IsRecoveredOf x image →
        Sorts (recovered x) (numbers_of (recovered x)) sorted → IsSourceOf x result.0 }
    ensures clean { (x : Image) → IsRecoveredOf x image →
        Sorts (recovered x) (numbers_of (recovered x)) sorted → CopiesClean x result.0 }
    ensures told { (x : Image) → Sorts (recovered x) (numbers_of (recovered x)) sorted →
        TellsRescued (recovered x) result.1 }
{
    clean_files_are_whole();
    let Sorted {
        mut kinds,
        clean,
        left,
    } = sorted;
    cut_kinds(&mut kinds);
    let source = Source {
        form: image.form,
        image,
        kinds,
        files: clean.len() as u64,
    };
    (source, Rescued { clean, left })
}
