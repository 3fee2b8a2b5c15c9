// The calls of a session.
ghost use Rattle.std.specs.Prelude.{◌≡◌, ◌≢◌, ◌⊎◌, ◌<◌, ◌≤◌, ◌+◌, ◌^◌, ◌∷◌, ◌++◌, [], ℕ, length, true, IfOk, IfErr, OnErr, None, option_to_list};
ghost use Rattle.std.specs.Option.{option_map};
ghost use Rattle.blocks.specs.Disk.{block_at};
ghost use Rattle.history.specs.Processes.{process};
ghost use Rattle.inodes.specs.Deeds.{wanted_holder};
ghost use Rattle.kernel.specs.Steps.{MakesStep};
ghost use Rattle.model.specs.declared.types.operations.Step.TheVariants as step;
ghost use Rattle.ports.specs.History.{first_in};
ghost use Rattle.ports.specs.Queues.{OthersWait, answers, polled, waiting};
ghost use Rattle.sessions.specs.Kept.{OthersKept, byte_count};
ghost use Rattle.sessions.specs.Refusal.{IsRefusal};
ghost use Rattle.sessions.specs.Session.{HasTaken, OpensOver, answers_of, disk_of, holds_of, image_of, intake_of, processes_of, syncs_of, writes_of};
ghost use Rattle.sessions.specs.Telling.{CarriesOn, Covers, TellsUse, fresh_ledger};
ghost use Rattle.wal.specs.Joint.{place_at};

use crate::HostDisk;
use crate::kept::Kept;
use crate::refusal::{OpenRefusal, refusal_of};
use crate::session::{Session, Stepped, Told};
use blocks::{BLOCK_SIZE, Disk};
use kernel::Kernel;
use layout::LOG_START;
use model::types::{Answer, Op};
use ports::{Herald, Intake, PlainHerald, QueueIntake};
use std::alloc::Global;
use wal::{Commit, Log};

// Where the next write of a commit goes.
fn next_place(log: &Log) -> u32
    ensures place { result ≡ place_at log.now.commit log.now.homes }
    ensures inside { result < log.now.size }
{
    log.known();
    match log.commit() {
        Commit::Logging(k) => LOG_START + 1 + k,
        Commit::Homing(k) => log.homes()[k as usize],
        _ => LOG_START,
    }
}

impl Session {
    /// Opens a kernel of so many processes over a copy of these bytes, on a plain disk or one that
    /// holds writes back: checks their image and recovers it. `writes` then answers the writes of the
    /// recovery, 0 where no block of the log waited to be copied home.
    ///
    /// # Errors
    ///
    /// In this order: `Length` where the bytes are not 1 to 8191 blocks of 1024; `Processes` where
    /// there are not 1 to 32; `Check` with the fault of the image. `NoMemory`, and
    /// `Check(CheckFault::NoMemory)`, where the allocator refuses memory.
    pub fn open(
        alloc: Global,
        image: &[u8],
        processes: u32,
        holds: bool,
    ) -> Result<Session, OpenRefusal>
        ensures opened { IfOk result
            (λ s. OpensOver ⟦<HostDisk as Disk>⟧ image.now processes holds s) }
        ensures covered { IfOk result (λ s. Covers ⟦<HostDisk as Disk>⟧ s (fresh_ledger s)) }
        ensures refused { IfErr result (IsRefusal image.now processes) }
    {
        let count = image.len() / BLOCK_SIZE;
        if image.len() % BLOCK_SIZE != 0 || count == 0 || count > 8191 {
            return Err(OpenRefusal::Length);
        }
        if processes == 0 || processes > 32 {
            return Err(OpenRefusal::Processes);
        }
        let Ok(disk) = HostDisk::over(alloc, image, count as u32, holds) else {
            return Err(OpenRefusal::NoMemory);
        };
        let Ok(intake) = QueueIntake::new(alloc, processes) else {
            return Err(OpenRefusal::NoMemory);
        };
        let Ok(kept) = Kept::new(alloc, processes) else {
            return Err(OpenRefusal::NoMemory);
        };
        match Kernel::open(alloc, disk, intake, PlainHerald::new(), processes) {
            Ok(kernel) => Ok(Session { kernel, kept }),
            Err((fault, _disk)) => Err(refusal_of(fault)),
        }
    }

    /// How many processes there are.
    pub fn processes(&self) -> usize
        ensures { result ≡ processes_of self.now }
    {
        self.kernel.processes()
    }

    /// The number of writes since the session was opened, those of its recovery included. It stays
    /// at its limit.
    pub fn writes(&self) -> u64
        ensures { result ≡ writes_of self.now }
    {
        self.kernel.disk().writes()
    }

    /// The number of syncs, as of writes. A plain disk is not synced.
    pub fn syncs(&self) -> u64
        ensures { result ≡ syncs_of self.now }
    {
        self.kernel.disk().syncs()
    }

    /// How many groups of operations a stop keeps.
    pub fn committed(&self) -> u64
        ensures { result ≡ self.now.kernel.store.volume.log.committed }
    {
        self.kernel.committed()
    }

    /// Hands an operation of a process in, behind those that wait, and answers how many the process
    /// handed in by now. Hands it back where 16 wait, or 2^64 - 1 were handed in.
    pub fn submit(&mut self, pid: u32, op: Op) -> Result<u64, Op>
        requires { pid < processes_of self.old }
        ensures ok { IfOk result (λ _. waiting (intake_of self.new) pid
            ≡ waiting (intake_of self.old) pid ++ op ∷ []) }
        ensures number { IfOk result (λ n. (length (waiting (intake_of self.old) pid) < 16)
            × (n ≡ (process self.old.kernel.world pid).begun
            + length (waiting (intake_of self.new) pid))) }
        ensures full { OnErr result ((16 ≤ length (waiting (intake_of self.old) pid))
            ⊎ ((process self.old.kernel.world pid).begun
            + length (waiting (intake_of self.old) pid) + 1 ≡ 2 ^ 64)) }
        ensures back { IfErr result (λ other. (other ≡ op)
            × (waiting (intake_of self.new) pid ≡ waiting (intake_of self.old) pid)) }
        ensures answers { (answers (intake_of self.new) pid ≡ answers (intake_of self.old) pid)
            × (polled (intake_of self.new) pid ≡ polled (intake_of self.old) pid)
            × (self.new.kept ≡ self.old.kept) }
        ensures others { OthersWait (intake_of self.old) (intake_of self.new) pid }
        ensures same { self.new.kernel
            ≡ record self.old.kernel { intake = intake_of self.new } }
    {
        self.kernel.submit(pid, op)
    }

    /// How many bytes the oldest answer of a process carries; None where none waits. It stays the oldest,
    /// but takes no place of its queue any more.
    pub fn oldest_bytes(&mut self, pid: u32) -> Option<usize>
        requires { pid < processes_of self.old }
        ensures bytes { result ≡ option_map byte_count (first_in (answers_of self.old pid)) }
        ensures answers { answers_of self.new pid ≡ answers_of self.old pid }
        ensures taken { (n : ℕ) → HasTaken self.old pid n → HasTaken self.new pid n }
        ensures waiting { waiting (intake_of self.new) pid ≡ waiting (intake_of self.old) pid }
        ensures others { OthersWait (intake_of self.old) (intake_of self.new) pid }
        ensures kept { OthersKept self.old.kept self.new.kept pid }
        ensures same { self.new.kernel
            ≡ record self.old.kernel { intake = intake_of self.new } }
    {
        if self.kept.has(pid) {
            return self.kept.bytes(pid);
        }
        let answer = self.kernel.poll(pid)?;
        self.kept.keep(pid, answer);
        self.kept.bytes(pid)
    }

    /// Takes the oldest answer of a process.
    pub fn poll(&mut self, pid: u32) -> Option<Answer>
        requires { pid < processes_of self.old }
        ensures answers { answers_of self.old pid
            ≡ option_to_list result ++ answers_of self.new pid }
        ensures oldest { result ≡ first_in (answers_of self.old pid) }
        ensures taken { (n : ℕ) → HasTaken self.old pid n
            → HasTaken self.new pid (n + length (option_to_list result)) }
        ensures waiting { waiting (intake_of self.new) pid ≡ waiting (intake_of self.old) pid }
        ensures others { OthersWait (intake_of self.old) (intake_of self.new) pid }
        ensures kept { OthersKept self.old.kept self.new.kept pid }
        ensures same { self.new.kernel
            ≡ record self.old.kernel { intake = intake_of self.new } }
    {
        match self.kept.take(pid) {
            Some(answer) => Some(answer),
            None => self.kernel.poll(pid),
        }
    }

    /// No operation begins from now on. Those that began go on to their end.
    pub fn shut(&mut self)
        ensures kernel { self.new.kernel ≡ record self.old.kernel {
          world = record self.old.kernel.world { is_shut = true };
        } }
        ensures kept { self.new.kept ≡ self.old.kept }
    {
        self.kernel.shut();
    }

    /// One step of a process, and what it did to the disk. A told write is all that it changed: the
    /// image is that of before with this block as it is now. A sync, and a step that tells nothing,
    /// leave the image as it was.
    ///
    /// What the user's own disk may hold goes on with it, where that holds writes back: any of the told
    /// writes over the image of the last told sync is what a stop of the session's disk may leave.
    ///
    /// The step is as the kernel promises of one: what it does, how the kernel goes on, and what a
    /// stop in it or behind it leaves. It is never `Halted`.
    pub fn step(&mut self, pid: u32) -> Stepped
        requires pid { pid < processes_of self.old }
        requires few { (writes_of self.old < 2 ^ 63) × (syncs_of self.old < 2 ^ 63) }
        ensures step { MakesStep ⟦<HostDisk as Disk>⟧ ⟦<QueueIntake as Intake>⟧
            ⟦<PlainHerald as Herald>⟧ pid result.step self.old.kernel self.new.kernel }
        ensures told { TellsUse result.told self.old self.new }
        ensures carries { holds_of self.old ≡ true
            → CarriesOn ⟦<HostDisk as Disk>⟧ result.told self.old self.new }
        ensures goes_on { result.step ≢ step.Halted }
        ensures kept { self.new.kept ≡ self.old.kept }
    {
        let place = next_place(self.kernel.log());
        let (writes, syncs) = (self.writes(), self.syncs());
        let step = self.kernel.step(pid);
        let told = if self.writes() != writes {
            Told::Wrote(place)
        } else if self.syncs() != syncs {
            Told::Synced
        } else {
            Told::Nothing
        };
        Stepped { step, told }
    }

    /// Who holds what the next step of a process gets or takes: the buffer of a block, or an inode's
    /// lock; None where nobody does.
    pub fn holder(&self, pid: u32) -> Option<u32>
        requires { pid < processes_of self.now }
        ensures { result ≡ wanted_holder self.now.kernel.store pid }
    {
        self.kernel.holder(pid)
    }

    /// The 1024 bytes of the block with this number, counted from 0.
    pub fn block(&self, block: u32) -> &[u8]
        requires { block < length (image_of self.now) }
        ensures value { result.now ≡ block_at (image_of self.now) block }
        ensures size { length result.now ≡ 1024 }
    {
        let disk = self.kernel.disk();
        disk.block(block)
    }

    /// Ends the session: the disk as it is. What was not committed is lost, as by a stop.
    pub fn close(self) -> HostDisk
        ensures { result ≡ disk_of self }
    {
        let Session {
            kernel,
            kept: _kept,
            ..
        } = self;
        kernel.into_disk()
    }
}
