// The texts of what can go wrong at an opening.
use kernel::OpenFault;
use layout::CheckFault;
use wal::RecoverFault;

/// Prints them.
pub fn print_faults(rt: &impl Print) -> anyhow::Result<()> {
    for fault in [
        OpenFault::Check(CheckFault::BadMagic),
        OpenFault::Recover(RecoverFault::Disk),
        OpenFault::Recover(RecoverFault::BadLog),
        OpenFault::Recover(RecoverFault::NoMemory),
        OpenFault::Recover(RecoverFault::Sync),
        OpenFault::NoMemory,
        OpenFault::ProcRange,
    ] {
        println!(rt; "{fault}")?;
    }
    Ok(())
}
