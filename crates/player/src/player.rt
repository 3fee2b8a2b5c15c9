// What turns are made of.
use blocks::{Disk, FaultyDisk};
use clients::Feeder;
use kernel::Kernel;
use rings::{Board, BoardHerald, RingIntake, Watch};

/// A kernel over rings, a board, and a disk of which one write may be stopped, and each process's
/// caller with the operations of a script.
#[derive(Drop)]
pub struct Player<'a, D: Disk> {
    pub(crate) kernel: Kernel<FaultyDisk<D>, RingIntake, BoardHerald<'a>>,
    pub(crate) board: &'a Board,
    pub(crate) watch: Watch,
    // Those of each process.
    pub(crate) feeders: Vec<Feeder>,
}
