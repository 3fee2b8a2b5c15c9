// The faults of the layers, as they are told.
ghost use Rattle.messages.specs.Telling.{
  check_telling,
  disk_telling,
  file_telling,
  mkfs_telling,
  recover_telling,
  schedule_telling,
  script_telling,
};

use crate::told::{Reason, Told};
use blocks::{DiskFault, FileFault};
use layout::{CheckFault, MkfsFault};
use scripts::{ScheduleFault, ScriptFault};
use wal::{DeviceFault, RecoverFault};

impl Reason for FileFault {
    ghost telling = { file_telling };

    fn told(&self) -> Told {
        match self {
            FileFault::Open => Told::new("file", 1, "Open"),
            FileFault::Length => Told::new("file", 2, "Length"),
            FileFault::NoMemory => Told::new("file", 3, "NoMemory"),
            FileFault::Locked => Told::new("file", 4, "Locked"),
            FileFault::Exists => Told::new("file", 5, "Exists"),
            FileFault::Unlockable => Told::new("file", 6, "Unlockable"),
        }
    }
}

impl Reason for MkfsFault {
    ghost telling = { mkfs_telling };

    fn told(&self) -> Told {
        match self {
            MkfsFault::SizeRange => Told::new("mkfs", 1, "SizeRange"),
            MkfsFault::InodeRange => Told::new("mkfs", 2, "InodeRange"),
            MkfsFault::Disk => Told::new("mkfs", 3, "Disk"),
            MkfsFault::NoMemory => Told::new("mkfs", 4, "NoMemory"),
        }
    }
}

impl Reason for CheckFault {
    ghost telling = { check_telling };

    fn told(&self) -> Told {
        match self {
            CheckFault::BadMagic => Told::new("check", 1, "BadMagic"),
            CheckFault::BadGeometry => Told::new("check", 2, "BadGeometry"),
            CheckFault::BadLog => Told::new("check", 3, "BadLog"),
            CheckFault::BadType(inode) => Told::naming("check", 4, "BadType", *inode),
            CheckFault::BadSize(inode) => Told::naming("check", 5, "BadSize", *inode),
            CheckFault::BadAddress(inode) => Told::naming("check", 6, "BadAddress", *inode),
            CheckFault::TwiceUsed(block) => Told::naming("check", 7, "TwiceUsed", *block),
            CheckFault::UsedButFree(block) => Told::naming("check", 8, "UsedButFree", *block),
            CheckFault::LostBlock(block) => Told::naming("check", 9, "LostBlock", *block),
            CheckFault::Disk => Told::new("check", 10, "Disk"),
            CheckFault::NoMemory => Told::new("check", 11, "NoMemory"),
        }
    }
}

impl Reason for RecoverFault {
    ghost telling = { recover_telling };

    fn told(&self) -> Told {
        match self {
            RecoverFault::Disk => Told::new("recover", 1, "Disk"),
            RecoverFault::BadLog => Told::new("recover", 2, "BadLog"),
            RecoverFault::NoMemory => Told::new("recover", 3, "NoMemory"),
            RecoverFault::Sync => Told::new("recover", 4, "Sync"),
        }
    }
}

impl Reason for ScriptFault {
    ghost telling = { script_telling };

    fn told(&self) -> Told {
        match self {
            ScriptFault::BadLine(line) => Told::naming("script", 1, "BadLine", *line),
            ScriptFault::TooLarge => Told::new("script", 2, "TooLarge"),
            ScriptFault::NoMemory => Told::new("script", 3, "NoMemory"),
            ScriptFault::File => Told::new("script", 4, "File"),
        }
    }
}

impl Reason for ScheduleFault {
    ghost telling = { schedule_telling };

    fn told(&self) -> Told {
        match self {
            ScheduleFault::BadWord(word) => Told::naming("schedule", 1, "BadWord", *word),
            ScheduleFault::TooLarge => Told::new("schedule", 2, "TooLarge"),
            ScheduleFault::NoMemory => Told::new("schedule", 3, "NoMemory"),
            ScheduleFault::File => Told::new("schedule", 4, "File"),
        }
    }
}

impl Reason for DeviceFault {
    ghost telling = { disk_telling };

    fn told(&self) -> Told {
        match self {
            DeviceFault::Block(DiskFault(block)) => Told::naming("disk", 1, "DiskFault", *block),
            DeviceFault::Sync(_) => Told::new("disk", 2, "SyncFault"),
        }
    }
}
