// A disk over another that keeps in memory what is written to it.
ghost use Rattle.std.specs.Prelude.{◌≡◌, ◌∷◌, ◌++◌, [], false, IfOk, IsOk, OnOk};
ghost use Rattle.commands_runs.specs.Writes.{AreWrites};

use blocks::{BLOCK_SIZE, Block, Disk, DiskFault, NoMemory, SyncFault};
use json_lines::Written;
use std::alloc::Global;
use std::marker::Model;
use std::snapshot::Snapshot;

/// A disk over another that keeps in memory each write that is made, in their order. Contracts see the
/// disk below, as it is and as it was at first, and these writes.
#[derive(Drop)]
pub struct Remembering<D: Disk> {
    disk: D,
    first: Snapshot<D>,
    written: Vec<Written>,
    // Whether a write isn't there, since it failed, or memory for it was refused.
    short: bool,
}

impl<D: Disk> Model for Remembering<D> {
    ghost use Rattle.commands_runs.specs.Writes.{IsKept, Kept};

    ghost Value = { Kept D };

    ghost view = { λ r. record {
      disk = r.disk;
      first = r.first.value;
      written = r.written.items;
      short = r.short;
    } };

    ghost invariant = { λ r. IsKept D.Disk (record {
      disk = r.disk;
      first = r.first.value;
      written = r.written.items;
      short = r.short;
    }) };
}

impl<D: Disk + Drop> Remembering<D> {
    // The same disk, to which nothing was written.
    pub fn over(alloc: Global, disk: D) -> Remembering<D>
        ensures disk { result.disk ≡ disk }
        ensures first { result.first ≡ disk }
        ensures none { result.written ≡ [] }
    {
        let first = Snapshot::of(&disk);
        Remembering {
            disk,
            first,
            written: Vec::new(alloc),
            short: false,
        }
    }

    // What was written, in order.
    //
    // # Errors
    //
    // `NoMemory` where a write isn't there: by its code memory for it was refused, where no write of the
    // disk below fails.
    pub fn into_written(self) -> Result<Vec<Written>, NoMemory>
        ensures { IfOk result
            (λ written. AreWrites D.Disk self.first self.disk written.items) }
    {
        if self.short {
            return Err(NoMemory);
        }
        let Remembering { written, .. } = self;
        Ok(written)
    }
}

impl<D: Disk> Disk for Remembering<D> {
    // That of the disk below, and that disk as it was at first.
    type Name = (D::Name, D);

    ghost name = { λ k. (D.name k.disk, k.first) };

    ghost image = { λ k. D.image k.disk };

    ghost moment = { λ k. D.moment k.disk };

    ghost leaves = { λ k. D.leaves k.disk };

    ghost write_count = { λ k. D.write_count k.disk };

    ghost fault_count = { λ k. D.fault_count k.disk };

    ghost sync_count = { λ k. D.sync_count k.disk };

    ghost holding = { λ n. D.holding n.0 };

    ghost is_image = { λ k. D.is_image k.disk };

    ghost leaves_images = { λ k. D.leaves_images k.disk };

    ghost counts_fit = { λ k. D.counts_fit k.disk };

    ghost counts_now = { λ k. D.counts_now k.disk };

    ghost has_now = { λ k. D.has_now k.disk };

    ghost only_now = { λ k. D.only_now k.disk };

    fn size(&self) -> u32 {
        self.disk.size()
    }

    fn writes(&self) -> u64 {
        self.disk.writes()
    }

    fn faults(&self) -> u64 {
        self.disk.faults()
    }

    fn syncs(&self) -> u64 {
        self.disk.syncs()
    }

    fn holds(&self) -> bool {
        self.disk.holds()
    }

    fn read(&mut self, block: u32, into: &mut Block) -> Result<(), DiskFault> {
        self.disk.read(block, into)
    }

    fn write(&mut self, block: u32, from: &Block) -> Result<(), DiskFault> {
        match self.disk.write(block, from) {
            Ok(()) => {
                self.short = or_short(self.short, keep(&mut self.written, block, from));
                Ok(())
            }
            Err(fault) => {
                self.short = true;
                Err(fault)
            }
        }
    }

    fn sync(&mut self) -> Result<(), SyncFault> {
        self.disk.sync()
    }
}

// Keeps a write behind the others.
fn keep(written: &mut Vec<Written>, block: u32, from: &Block) -> Result<(), NoMemory>
    ensures { OnOk result (written.new.items ≡ written.old.items
        ++ record { block = block; bytes = from.now } ∷ []) }
{
    let mut bytes = [0; BLOCK_SIZE];
    bytes.copy_from_slice(from.as_slice());
    written.push(Written { block, bytes })?;
    Ok(())
}

// Whether a write isn't there, of those before and this one.
fn or_short(short: bool, kept: Result<(), NoMemory>) -> bool
    ensures { result ≡ false → (short ≡ false) × IsOk kept }
{
    short || kept.is_err()
}
