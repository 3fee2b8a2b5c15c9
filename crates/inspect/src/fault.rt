// Why blocks aren't gathered from a disk whose image was checked.
ghost use Rattle.std.specs.Prelude.{◌≡◌};

use crate::refused::{DfRefusal, LsRefusal, ShowRefusal};
use blocks::{DiskFault, NoMemory};
use layout::CheckFault;
use std::alloc::{AllocError, AllocFailed};

/// Why what an image has was not gathered.
#[derive(Clone, Copy)]
pub enum GatherFault {
    /// A read failed.
    Disk,
    /// Memory was refused.
    NoMemory,
}

impl From<GatherFault> for LsRefusal {
    ghost use Rattle.inspect.specs.Gathering.{ls_refusal_of};

    ghost from_gives = { λ fault r. r ≡ ls_refusal_of fault };

    fn from(fault: GatherFault) -> LsRefusal {
        match fault {
            GatherFault::Disk => LsRefusal::Check(CheckFault::Disk),
            GatherFault::NoMemory => LsRefusal::NoMemory,
        }
    }
}

impl From<GatherFault> for ShowRefusal {
    ghost use Rattle.inspect.specs.Gathering.{show_refusal_of};

    ghost from_gives = { λ fault r. r ≡ show_refusal_of fault };

    fn from(fault: GatherFault) -> ShowRefusal {
        match fault {
            GatherFault::Disk => ShowRefusal::Check(CheckFault::Disk),
            GatherFault::NoMemory => ShowRefusal::NoMemory,
        }
    }
}

impl From<GatherFault> for DfRefusal {
    ghost use Rattle.inspect.specs.Gathering.{df_refusal_of};

    ghost from_gives = { λ fault r. r ≡ df_refusal_of fault };

    fn from(fault: GatherFault) -> DfRefusal {
        match fault {
            GatherFault::Disk => DfRefusal::Check(CheckFault::Disk),
            GatherFault::NoMemory => DfRefusal::NoMemory,
        }
    }
}

impl From<DiskFault> for GatherFault {
    ghost use Rattle.inspect.specs.declared.fault.GatherFault.TheVariants as fault;

    ghost from_gives = { λ _ e. e ≡ fault.Disk };

    fn from(_failed: DiskFault) -> GatherFault {
        GatherFault::Disk
    }
}

impl From<NoMemory> for GatherFault {
    ghost use Rattle.inspect.specs.declared.fault.GatherFault.TheVariants as fault;

    ghost from_gives = { λ _ e. e ≡ fault.NoMemory };

    fn from(_refused: NoMemory) -> GatherFault {
        GatherFault::NoMemory
    }
}

impl From<AllocError> for GatherFault {
    ghost use Rattle.inspect.specs.declared.fault.GatherFault.TheVariants as fault;

    ghost from_gives = { λ _ e. e ≡ fault.NoMemory };

    fn from(_refused: AllocError) -> GatherFault {
        GatherFault::NoMemory
    }
}

impl<T: Drop> From<AllocFailed<T>> for GatherFault {
    ghost use Rattle.inspect.specs.declared.fault.GatherFault.TheVariants as fault;

    ghost from_gives = { λ _ e. e ≡ fault.NoMemory };

    fn from(_refused: AllocFailed<T>) -> GatherFault {
        GatherFault::NoMemory
    }
}
