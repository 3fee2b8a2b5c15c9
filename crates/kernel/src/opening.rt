// Opening a kernel, and what may be asked of it between two steps.
ghost use Rattle.std.specs.Prelude.{◌≡◌, ◌<◌, ℕ, true, length, replicate, IfOk, IfErr, IfSome, IsTrue};
ghost use Rattle.model.specs.Layout.{is_lawful_super};
ghost use Rattle.wal.specs.Machine.{begin_cause};
ghost use Rattle.wal.specs.Volume.{IsNewMemory};
ghost use Rattle.inodes.specs.Tasks.{no_task};
ghost use Rattle.history.specs.Processes.{fresh_world, process};
ghost use Rattle.kernel.specs.Opening.{IsOpened, RefusesToOpen};
ghost use Rattle.ports.specs.History.{nothing_yet};

use crate::OpenFault;
use crate::stepping::Kernel;
use bcache::Cache;
use blocks::{Disk, NoMemory};
use history::Processes;
use inodes::{Store, Tasks};
use layout::Super;
use model::types::{Entry, Why};
use offline::check;
use ports::{Herald, Intake};
use std::alloc::Global;
use std::snapshot::Snapshot;
use wal::{DeviceFault, Log, Volume, recover};

// What a kernel has in memory.
#[derive(Drop)]
struct Memory {
    cache: Cache,
    log: Log,
    tasks: Tasks,
    processes: Processes,
}

// Takes the memory of a kernel over an image with this superblock.
fn take_memory(alloc: Global, sup: &Super, processes: u32) -> Result<Memory, NoMemory>
    requires { IsTrue (is_lawful_super sup.now sup.now.size) }
    ensures memory { IfOk result (λ memory. IsNewMemory memory.cache memory.log sup.now.size) }
    ensures tasks { IfOk result (λ memory. memory.tasks ≡ replicate processes no_task) }
    ensures processes { IfOk result (λ memory. memory.processes ≡ fresh_world processes) }
{
    Ok(Memory {
        cache: Cache::new(alloc)?,
        log: Log::new(alloc, sup)?,
        tasks: Tasks::new(alloc, processes)?,
        processes: Processes::new(alloc, processes)?,
    })
}

impl<D: Disk, I: Intake, H: Herald> Kernel<D, I, H> {
    /// A kernel of so many processes over the image of a disk: checks the image, takes the kernel's
    /// memory, and recovers the image. The intake serves these processes and nothing was taken of
    /// it, and the herald was told of no group.
    ///
    /// # Errors
    ///
    /// Hands the disk back with `ProcRange` where there are not 1 to 32 processes; with the fault
    /// of the check; with `NoMemory` where memory was refused; with the fault of the recovery. But
    /// for the last of them no block was written, and no disk was synced; nor was one ever that holds
    /// no writes back. A call of the disk that failed is told as `Disk` or `Sync`.
    pub fn open(
        alloc: Global,
        mut disk: D,
        intake: I,
        herald: H,
        processes: u32,
    ) -> Result<Kernel<D, I, H>, (OpenFault, D)>
        requires served { I.process_count intake ≡ processes }
        requires told { H.count herald ≡ 0 }
        requires fits { (p : ℕ) → p < processes → I.fits intake p nothing_yet }
        ensures opened { IfOk result (λ k. IsOpened D.Disk disk intake herald processes k) }
        ensures refused { IfErr result (λ e. RefusesToOpen D.Disk disk e.1 processes e.0) }
    {
        if !(1..=32).contains(&processes) {
            return Err((OpenFault::ProcRange, disk));
        }
        let (sup, form) = match check(alloc, &mut disk) {
            Ok(report) => (report.sup, report.form),
            Err(fault) => return Err((OpenFault::Check(fault), disk)),
        };
        let Ok(memory) = take_memory(alloc, &sup, processes) else {
            return Err((OpenFault::NoMemory, disk));
        };
        if let Err(fault) = recover(alloc, &mut disk, &sup) {
            return Err((OpenFault::Recover(fault), disk));
        }
        let Memory {
            cache,
            log,
            tasks,
            processes,
        } = memory;
        let opening = Snapshot::of(&disk);
        let store = Store::open(Volume::open(disk, cache, log), tasks, &sup, form);
        store.known();
        Ok(Kernel {
            alloc,
            store,
            opening,
            intake,
            herald,
            processes,
        })
    }

    /// No operation begins from now on. Those that began go on to their end.
    pub fn shut(&mut self)
        ensures { self.new ≡ record self.old { world = record self.old.world { is_shut = true } } }
    {
        self.processes.shut();
    }

    /// Keeps the operations that have their turn in memory from now on, if none had it yet.
    pub fn record(&mut self)
        ensures { self.new ≡ self.old }
    {
        self.processes.record();
    }

    /// The operations that had their turn, the oldest first, where they are kept: as from `record`,
    /// and until memory was refused for one.
    pub fn journal(&self) -> Option<&[Entry]>
        ensures { IfSome result (λ entries. entries.now ≡ self.now.world.journal.list) }
    {
        self.processes.entries()
    }

    /// How many operations had their turn, or were answered at once.
    pub fn had(&self) -> usize
        ensures { result ≡ length self.now.world.journal.list }
    {
        self.processes.had()
    }

    /// How many groups are committed.
    pub fn committed(&self) -> u64
        ensures { result ≡ self.now.store.volume.log.committed }
    {
        self.store.volume().log().committed()
    }

    /// How many groups were opened.
    pub fn opened(&self) -> u64
        ensures { result ≡ self.now.store.volume.log.opened }
    {
        self.store.volume().log().opened()
    }

    /// How many processes there are.
    pub fn processes(&self) -> usize
        ensures { result ≡ length self.now.world.processes }
    {
        self.processes.len()
    }

    /// How many operations were taken for a process.
    pub fn begun(&self, pid: u32) -> u64
        requires { pid < length self.now.world.processes }
        ensures { result ≡ (process self.now.world pid).begun }
    {
        self.processes.begun(pid)
    }

    /// The disk as it is, for who only asks.
    pub fn disk(&self) -> &D
        ensures { result.now ≡ self.now.store.volume.device }
    {
        self.store.volume().disk()
    }

    /// The log as it is, for who asks where a commit stands.
    pub fn log(&self) -> &Log
        ensures { result.now ≡ self.now.store.volume.log }
    {
        self.store.volume().log()
    }

    /// The fault of the disk, after which no step is made any more.
    pub fn fault(&self) -> Option<DeviceFault>
        ensures { result ≡ self.now.store.volume.fault }
    {
        self.store.volume().fault()
    }

    /// Why an operation that changes files would have to sleep now before it begins, as the log's
    /// `may_begin`; none where one could begin.
    pub fn may_begin(&self) -> Option<Why>
        ensures { result ≡ begin_cause self.now.store.volume.log }
    {
        self.store.volume().may_begin()
    }

    /// The disk as it is.
    pub fn into_disk(self) -> D
        ensures { result ≡ self.store.volume.device }
    {
        let Kernel { store, .. } = self;
        store.into_disk()
    }
}
