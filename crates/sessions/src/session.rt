// The types of a session.
ghost use Rattle.std.specs.Prelude.{◌≡◌, None, length};

use crate::HostDisk;
use crate::kept::Kept;
use kernel::{Kernel, Step};
use ports::{PlainHerald, QueueIntake};

/// What a step did to the disk, which the user does to his own.
#[derive(Clone, Copy, Debug, PartialEq)]
pub enum Told {
    Nothing,
    /// It wrote the block of this number.
    Wrote(u32),
    /// It synced the disk, which holds writes back.
    Synced,
}

/// What a step did.
#[derive(Clone, Copy)]
pub struct Stepped {
    /// As the kernel's step answers.
    pub step: Step,
    pub told: Told,
}

/// A kernel over a copy of an image, with plain queues in memory. Its disk never fails, so no step is
/// `Halted`. The oldest answer of a process is kept beside its queue, once it was looked at.
#[derive(Drop)]
pub struct Session {
    pub(crate) kernel: Kernel<HostDisk, QueueIntake, PlainHerald>,
    pub(crate) kept: Kept,
    ghost faultless: { kernel.store.volume.fault ≡ None },
    ghost one_each: { length kept ≡ length kernel.world.processes },
}
