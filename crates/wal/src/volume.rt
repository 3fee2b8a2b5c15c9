// A disk with its buffer cache and its log, as the layers above use them.
ghost use Rattle.std.specs.Prelude.{◌≡◌, ◌<◌, ◌≤◌, ◌+◌, ◌^◌, ℕ, false, length, slice_set, Some, None, IsSome, IfNone};
ghost use Rattle.blocks.specs.Block.{IsBlock, overwritten, block_size};
ghost use Rattle.blocks.specs.Calls.{UnlessHolds};
ghost use Rattle.blocks.specs.Disk.{Image, IsImage, IsSettled, block_at};
ghost use Rattle.model.specs.Format.{inode_start};
ghost use Rattle.wal.specs.Floats.{Survives};
ghost use Rattle.model.specs.Log.{logged_count};
ghost use Rattle.bcache.specs.Buffers.{buffer, block_or_zero, filled, fresh_buffers, released, EndsUnfilled};
ghost use Rattle.wal.specs.Machine.{is_quiet, is_syncing, new_log, begin_cause, begin_answer, after_begin, used_by, ended, end_answer};
ghost use Rattle.wal.specs.Joint.{Joint, seen};
ghost use Rattle.wal.specs.Held.{HoldsBlock, LeavesLocks, GivesUpLock};
ghost use Rattle.wal.specs.Volume.{Holds, IsNewMemory, MayChange, LacksBlock, GetsFor, ReadsFor, VolumeCommits, why_busy, after_change, fault_of_step, OnFault, UnlessFault, fill_answer, progress_of, slot_of};

use crate::{Began, Committed, DeviceFault, Ended, Log};
use bcache::{Acquired, Busy, Cache};
use blocks::{Block, Disk, DiskFault};
use model::types::{Progress, Why};
use std::marker::Model;

/// A disk with its buffer cache and its log (the xv6 book, the chapter "File system": "Buffer cache
/// layer", "Logging layer"). Contracts speak of the current image: the disk's blocks, with each
/// valid buffer in its block's place.
///
/// After a fault of the disk nothing is promised of the three together, and only the getters and
/// `into_disk` may be called.
#[derive(Drop)]
pub struct Volume<D: Disk> {
    disk: D,
    cache: Cache,
    log: Log,
    fault: Option<DeviceFault>,
}

impl<D: Disk> Model for Volume<D> {
    ghost use Rattle.std.specs.Prelude.{IfNone};
    ghost use Rattle.wal.specs.Floats.{IsVolume};
    ghost use Rattle.wal.specs.Volume.{VolumeState};

    ghost Value = { VolumeState D };

    ghost view = { λ v. record {
      device = v.disk;
      buffers = v.cache;
      log = v.log;
      fault = v.fault;
    } };

    ghost invariant = { λ v. IfNone v.fault (IsVolume (D.holding (D.name v.disk))
        (D.image v.disk) v.cache v.log
        (D.leaves v.disk (D.moment v.disk))) };
}

impl<D: Disk> Volume<D> {
    /// A disk on which nothing is logged and nothing is held, with a cache whose slots were never
    /// taken, and a new log for an image of its size.
    pub fn open(disk: D, cache: Cache, log: Log) -> Volume<D>
        requires memory { IsNewMemory cache log (length (D.image disk)) }
        requires none { logged_count (D.image disk) ≡ 0 }
        requires settled { IsSettled (D.image disk) (D.leaves disk (D.moment disk)) }
        ensures volume { result ≡ record {
          device = disk;
          buffers = fresh_buffers;
          log = new_log
              (length (D.image disk));
          fault = None;
        } }
        ensures current { seen (D.image result.device) result.buffers ≡ D.image disk }
    {
        log.known();
        Volume {
            disk,
            cache,
            log,
            fault: None,
        }
    }

    /// Does nothing: where the disk hasn't failed, it says what is true of disk, buffers and log
    /// together, and what recovery gives for each image that a crash now may leave. Over a disk that
    /// holds no writes back a commit never waits for a sync.
    pub fn known(&self)
        ensures joint { IfNone self.now.fault (Joint
            (D.image self.now.device) self.now.buffers self.now.log) }
        ensures survives { IfNone self.now.fault ((z : Image)
            → D.leaves self.now.device (D.moment self.now.device) z
            → Survives self.now.log.commit (D.image self.now.device) z) }
        ensures plain { IfNone self.now.fault (UnlessHolds D.Disk self.now.device
            (is_syncing self.now.log.commit ≡ false)) }
    {
        let _ = &self.fault;
    }

    /// Does nothing: where the disk hasn't failed, each block of the current image has 1024 bytes.
    pub fn image_known(&self)
        ensures { IfNone self.now.fault (IsImage
            (seen (D.image self.now.device) self.now.buffers)) }
    {
        let _ = &self.fault;
    }

    /// The disk.
    pub fn disk(&self) -> &D
        ensures { result.now ≡ self.now.device }
    {
        &self.disk
    }

    /// The buffers.
    pub fn cache(&self) -> &Cache
        ensures { result.now ≡ self.now.buffers }
    {
        &self.cache
    }

    /// The log.
    pub fn log(&self) -> &Log
        ensures { result.now ≡ self.now.log }
    {
        &self.log
    }

    /// The fault of the disk, after which nothing is done any more.
    pub fn fault(&self) -> Option<DeviceFault>
        ensures { result ≡ self.now.fault }
    {
        self.fault
    }

    /// The disk, without its buffers and its log.
    pub fn into_disk(self) -> D
        ensures { result ≡ self.device }
    {
        let Volume { disk, .. } = self;
        disk
    }

    /// Why an operation would have to sleep before it begins, as the log's `may_begin`.
    pub fn may_begin(&self) -> Option<Why>
        ensures { result ≡ begin_cause self.now.log }
    {
        self.log.may_begin()
    }

    /// Opens an operation of a process that has none open, as the log's `begin`.
    pub fn begin(&mut self, pid: u32) -> Began
        requires fault { self.old.fault ≡ None }
        requires pid { pid < 32 }
        requires none { used_by self.old.log pid ≡ None }
        requires opened { begin_cause self.old.log ≡ None → self.old.log.outstanding ≡ 0
            → self.old.log.opened + 1 < 2 ^ 64 }
        ensures answer { result ≡ begin_answer self.old.log pid }
        ensures volume { self.new ≡ record self.old { log = after_begin self.old.log pid } }
    {
        self.log.begin(pid)
    }

    /// Ends the operation that a process has open, as the log's `end`.
    pub fn end(&mut self, pid: u32) -> Ended
        requires fault { self.old.fault ≡ None }
        requires pid { pid < 32 }
        requires open { IsSome (used_by self.old.log pid) }
        ensures answer { result ≡ end_answer self.old.log }
        ensures volume { self.new ≡ record self.old { log = ended self.old.log pid } }
    {
        self.log.end(pid)
    }

    /// Gets the lock of a block's slot for a process (`bread`): `Moved` with a valid slot, for which
    /// the block was read where no buffer showed it; `Sleeping` with `BufferHeld` or `NoBuffer`
    /// where the cache's `acquire` has to wait, and nothing is changed. `Fault` where that read
    /// failed; the slot then keeps the process's lock. No other lock is taken, and what is held
    /// stays so; who waits for a held buffer waits for its lock.
    pub fn get<T>(&mut self, pid: u32, block: u32, slot: &mut Option<u32>) -> Progress<T>
        requires fault { self.old.fault ≡ None }
        requires behind { inode_start ≤ block }
        requires within { block < self.old.log.size }
        requires none { slot.old ≡ None }
        ensures { GetsFor D.Disk self.old pid block result slot.new self.new }
    {
        match self.cache.acquire(pid, block) {
            Acquired::Sleeping(busy) => Progress::Sleeping(why(busy)),
            Acquired::Got {
                slot: got,
                valid: true,
            } => keep(Ok(()), got, slot),
            Acquired::Got {
                slot: got,
                valid: false,
            } => keep(self.fill(block, got), got, slot),
        }
    }

    // Reads the block of a slot that isn't valid.
    fn fill(&mut self, block: u32, slot: u32) -> Result<(), DiskFault>
        requires fault { self.old.fault ≡ None }
        requires lacks { LacksBlock self.old.buffers block slot }
        ensures buffers { UnlessFault (fill_answer slot result)
            (self.new.buffers ≡ filled self.old.buffers slot
            (block_at (D.image self.old.device) block)) }
        ensures place { OnFault (fill_answer slot result) (λ fault. fault.0 ≡ block) }
        ensures failed { OnFault (fill_answer slot result)
            (λ _. EndsUnfilled self.old.buffers slot self.new.buffers) }
        ensures reads { ReadsFor D.Disk self.old (fill_answer slot result) self.new }
    {
        match self.cache.fill(slot, &mut self.disk) {
            Ok(()) => Ok(()),
            Err(fault) => {
                self.fault = Some(DeviceFault::Block(fault));
                Err(fault)
            }
        }
    }

    /// The bytes of a slot: of one whose block a process holds, that block of the current image.
    pub fn data(&self, slot: u32) -> &Block
        requires { slot < 40 }
        ensures bytes { result.now ≡ (buffer self.now.buffers slot).bytes }
        ensures block { IsBlock result.now }
        ensures current { (pid b : ℕ) → self.now.fault ≡ None
            → HoldsBlock self.now.buffers pid b slot
            → result.now ≡ block_at (seen (D.image self.now.device) self.now.buffers) b }
    {
        self.cache.data(slot)
    }

    /// The holder of a slot gives up its lock (`brelse`), as the cache's `release`.
    pub fn release(&mut self, pid: u32, slot: u32)
        requires fault { self.old.fault ≡ None }
        requires slot { slot < 40 }
        requires held { (buffer self.old.buffers slot).holder ≡ Some pid }
        ensures volume { self.new ≡ record self.old { buffers = released self.old.buffers slot } }
        ensures current { seen (D.image self.new.device) self.new.buffers ≡ seen
            (D.image self.old.device) self.old.buffers }
        ensures locks { GivesUpLock self.old.buffers self.new.buffers pid slot }
    {
        self.cache.release(pid, slot);
    }

    /// Logs the block of a valid slot that a process holds (`log_write`), and writes these bytes in
    /// the place of its own from the index `at` on: the current image changes in that block alone.
    /// The process has an operation open that added fewer than ten homes.
    pub fn change(&mut self, pid: u32, slot: u32, at: usize, bytes: &[u8])
        requires fault { self.old.fault ≡ None }
        requires may { MayChange self.old pid slot }
        requires fits { at + length bytes.now ≤ block_size }
        ensures volume { self.new ≡ after_change self.old pid slot at bytes.now }
        ensures current { seen (D.image self.new.device) self.new.buffers ≡ slice_set
            (seen (D.image self.old.device) self.old.buffers)
            (block_or_zero (buffer self.old.buffers slot).block)
            (overwritten (buffer self.old.buffers slot).bytes at bytes.now) }
        ensures holds { Holds (seen (D.image self.new.device) self.new.buffers) self.new.buffers
            pid (block_or_zero (buffer self.old.buffers slot).block) slot }
        ensures locks { LeavesLocks self.old.buffers self.new.buffers }
    {
        self.log.log_write(pid, &mut self.cache, slot);
        self.cache.put(pid, slot, at, bytes);
    }

    /// Makes the next write, or sync, of a commit that is under way, as the log's `commit_step`.
    /// Outside the log the current image stays.
    pub fn commit_step(&mut self) -> Committed
        requires fault { self.old.fault ≡ None }
        requires busy { is_quiet self.old.log.commit ≡ false }
        ensures commits { VolumeCommits D.Disk self.old result self.new }
    {
        let answer = self.log.commit_step(&mut self.cache, &mut self.disk);
        self.fault = fault_of(answer);
        answer
    }
}

// Keeps a slot that was got, unless its block could not be read.
fn keep<T>(filled: Result<(), DiskFault>, got: u32, slot: &mut Option<u32>) -> Progress<T>
    requires { slot.old ≡ None }
    ensures progress { result ≡ progress_of (fill_answer got filled) }
    ensures slot { slot.new ≡ slot_of (fill_answer got filled) }
{
    match filled {
        Ok(()) => {
            *slot = Some(got);
            Progress::Moved
        }
        Err(fault) => Progress::Fault(fault),
    }
}

// Why a process waits for a buffer.
fn why(busy: Busy) -> Why
    ensures { result ≡ why_busy busy }
{
    match busy {
        Busy::Held => Why::BufferHeld,
        Busy::NoBuffer => Why::NoBuffer,
    }
}

// The fault of a step.
fn fault_of(answer: Committed) -> Option<DeviceFault>
    ensures { result ≡ fault_of_step answer }
{
    match answer {
        Committed::More | Committed::Durable(_) | Committed::Done => None,
        Committed::Fault(fault) => Some(fault),
    }
}
