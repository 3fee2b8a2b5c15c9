// All faults of an inode's pointers, whatever they lead to.
ghost use Rattle.std.specs.Prelude.{◌∷◌, []};
ghost use Rattle.blocks.specs.Disk.{Image};
ghost use Rattle.model.specs.Faults.{listed};
ghost use Rattle.offline.specs.Notes.{NotesPointers};
ghost use Rattle.offline.specs.Owners.{SameLimits};

use crate::hearing::HearsFaults;
use crate::owners::Owners;
use model::types::{CheckFault, Pointer};

// An inode whose pointers are noted.
#[derive(Clone, Copy)]
pub struct Owner {
    pub number: u32,
    // Whether the faults of its pointers are told.
    pub is_judged: bool,
}

// Tells a fault, if there is one.
pub fn tell_if_some<H: HearsFaults>(hearer: &mut H, fault: Option<CheckFault>)
    ensures { H.hears hearer.old (listed fault) hearer.new }
{
    if let Some(fault) = fault {
        hearer.hear(fault);
    }
}

// Notes where the block of a pointer stands, and tells the fault of that, if its owner is judged.
fn note_pointer<H: HearsFaults>(owners: &mut Owners, hearer: &mut H, owner: Owner, pointer: Pointer)
    ensures limits { SameLimits owners.old owners.new }
    ensures noted { (y : Image) → NotesPointers H.hears y owner (pointer ∷ [])
        owners.old owners.new hearer.old hearer.new }
{
    let fault = owners.note(owner.number, pointer);
    if owner.is_judged {
        tell_if_some(hearer, fault);
    }
}

// The same of a list of them, in their order.
pub fn note_list<H: HearsFaults>(
    owners: &mut Owners,
    hearer: &mut H,
    owner: Owner,
    list: &Vec<Pointer>,
)
    ensures limits { SameLimits owners.old owners.new }
    ensures noted { (y : Image) → NotesPointers H.hears y owner list.now.items
        owners.old owners.new hearer.old hearer.new }
{
    for k in 0..list.len() {
        note_pointer(owners, hearer, owner, list[k]);
    }
}
