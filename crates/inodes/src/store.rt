// A volume with the tasks of the processes that work on its files.
ghost use Rattle.std.specs.Prelude.{◌≡◌, ◌<◌, ◌≤◌, false, length, replicate, Some, None, IsSome, IfNone};
ghost use Rattle.bcache.specs.Buffers.{found};
ghost use Rattle.blocks.specs.Disk.{Image};
ghost use Rattle.wal.specs.Floats.{Survives};
ghost use Rattle.wal.specs.Joint.{Joint};
ghost use Rattle.model.specs.Files.{files_of};
ghost use Rattle.model.specs.declared.types.operations.Op.{Op};
ghost use Rattle.model.specs.Layout.{form_of, inode_count_of};
ghost use Rattle.model.specs.Soundness.{IsSound};
ghost use Rattle.wal.specs.Machine.{used_by, is_quiet, begun, ended, end_answer};
ghost use Rattle.inodes.specs.Tasks.{task, no_task};
ghost use Rattle.inodes.specs.Store.{IsStore, MayBegin, FitsFiles, KeepsFiles, fresh_volume, with_begun, with_log, first_stage, reply_of, CanBegin};
ghost use Rattle.inodes.specs.Deeds.{holder_of_slot, task_deed, wanted_holder};
ghost use Rattle.inodes.specs.Goes.{over};
ghost use Rattle.inodes.specs.Steps.{Steps, Commits};
ghost use Rattle.inodes.specs.Stages.{is_over};
ghost use Rattle.inodes.specs.Table.{new_table};
ghost use Rattle.inodes.specs.Waiting.{AloneGetsBuffers, NobodyWaitsForEver};
ghost use Rattle.inodes.specs.declared.tasks.Stage.TheVariants as stage;

use crate::{Ialloc, Ilock, Inodes, Progress, Stage, Tasks};
use bcache::Cache;
use blocks::Disk;
use layout::{Form, Super};
use model::types::{Op, Reply, TaskProgress};
use std::marker::Model;
use std::snapshot::Snapshot;
use wal::{Began, Committed, Ended, TaskDeed, Volume};

/// A volume with the tasks of up to 32 processes, whose steps go on in any order. Contracts say
/// which files the current image stands for (`FitsFiles`), and what each step makes of them.
#[derive(Drop)]
pub struct Store<D: Disk> {
    pub(crate) volume: Volume<D>,
    pub(crate) inodes: Inodes,
    pub(crate) tasks: Tasks,
}

impl<D: Disk> Model for Store<D> {
    ghost use Rattle.inodes.specs.Store.{StoreState, IsStore};

    ghost Value = { StoreState D };

    ghost view = { λ s. record {
      volume = s.volume;
      tasks = s.tasks;
      table = s.inodes;
    } };

    ghost invariant = { λ s. IsStore D.image (record {
      volume = s.volume;
      tasks = s.tasks;
      table = s.inodes;
    }) };
}

impl<D: Disk> Store<D> {
    /// A store over the fresh volume of a sound image with this superblock and form, with no task
    /// under way.
    pub fn open(volume: Volume<D>, tasks: Tasks, sup: &Super, form: Form) -> Store<D>
        requires volume { volume ≡ fresh_volume D.image volume.device }
        requires sound { IsSound (D.image volume.device) }
        requires tasks { tasks ≡ replicate (length tasks) no_task }
        requires few { length tasks ≤ 32 }
        requires numbers { sup.now.ninodes ≡ inode_count_of (D.image volume.device) }
        requires form { form ≡ form_of (D.image volume.device) }
        ensures store { result
            ≡ record { volume = volume; tasks = tasks; table = new_table form sup.now.ninodes } }
        ensures files { FitsFiles D.image result (files_of (D.image volume.device)) }
    {
        Store {
            volume,
            inodes: Inodes::new(sup, form),
            tasks,
        }
    }

    /// The volume, for who only asks.
    pub fn volume(&self) -> &Volume<D>
        ensures { result.now ≡ self.now.volume }
    {
        &self.volume
    }

    /// The image's inode numbers, the unused number 0 included.
    pub fn inode_count(&self) -> u32
        ensures { result ≡ self.now.table.inode_count }
    {
        self.inodes.inode_count()
    }

    /// Does nothing: it says what is true of every store. Where a task is under way, one is whose
    /// next step need not wait: xv6 and Bach argue so of their sleep locks and buffers (Bach, "The
    /// Buffer Cache": "Scenarios for retrieval of a buffer"); here it is proved. A task that alone
    /// holds buffers never waits for a free one.
    pub fn known(&self)
        ensures store { IsStore D.image self.now }
        ensures volume { IfNone self.now.volume.fault (Joint (D.image self.now.volume.device)
            self.now.volume.buffers self.now.volume.log) }
        ensures survives { IfNone self.now.volume.fault ((z : Image)
            → D.leaves self.now.volume.device (D.moment self.now.volume.device) z
            → Survives self.now.volume.log.commit (D.image self.now.volume.device) z) }
        ensures goes { IfNone self.now.volume.fault (NobodyWaitsForEver self.now) }
        ensures alone { IfNone self.now.volume.fault (AloneGetsBuffers self.now) }
    {
        self.volume.known();
    }

    /// Whether a process has no task, or one that is over.
    pub fn is_over(&self, pid: u32) -> bool
        requires { pid < length self.now.tasks }
        ensures { result ≡ is_over (task self.now.tasks pid).stage }
    {
        match self.tasks.stage(pid) {
            Stage::Nowhere => true,
            Stage::Creating(_)
            | Stage::Taking(_)
            | Stage::Reading { .. }
            | Stage::Delivering { .. }
            | Stage::Truncating { .. }
            | Stage::Writing { .. }
            | Stage::Setting { .. }
            | Stage::Leaving { .. } => false,
        }
    }

    /// What the next step of a process's task does, unless it has to wait; None where it has none.
    pub fn deed(&self, pid: u32) -> Option<TaskDeed>
        requires { pid < length self.now.tasks }
        ensures { result ≡ task_deed self.now pid }
    {
        match self.tasks.stage(pid) {
            Stage::Nowhere => None,
            Stage::Creating(search) => Some(search.deed()),
            Stage::Taking(lock) => Some(lock.deed()),
            Stage::Reading { reading, .. } => Some(reading.deed()),
            Stage::Delivering { .. } => Some(TaskDeed::Finish),
            Stage::Truncating { trunc, .. } => Some(trunc.deed()),
            Stage::Writing { writing, .. } => Some(writing.deed()),
            Stage::Setting { update, .. } => Some(update.deed()),
            Stage::Leaving { .. } => Some(TaskDeed::Put),
        }
    }

    /// Who holds what the next step of a process's task gets or takes: the buffer of a block, or an
    /// inode's lock; None where nobody does.
    pub fn holder(&self, pid: u32) -> Option<u32>
        requires { pid < length self.now.tasks }
        ensures { result ≡ wanted_holder self.now pid }
    {
        match self.deed(pid) {
            Some(TaskDeed::Get(block)) => block_holder(self.volume.cache(), block),
            Some(TaskDeed::Lock { place, .. }) => self.inodes.holder(place),
            Some(
                TaskDeed::Reference(_)
                | TaskDeed::Use(_)
                | TaskDeed::Look(_)
                | TaskDeed::Finish
                | TaskDeed::Put,
            )
            | None => None,
        }
    }

    /// The disk, without buffers, log and tasks.
    pub fn into_disk(self) -> D
        ensures { result ≡ self.volume.device }
    {
        let Store { volume, .. } = self;
        volume.into_disk()
    }

    /// Opens a changing operation of a process in the log, and begins its task. The number of its
    /// group.
    pub fn begin(&mut self, pid: u32, op: &Op) -> u64
        requires fault { self.old.volume.fault ≡ None }
        requires pid { pid < length self.old.tasks }
        requires idle { (task self.old.tasks pid).stage ≡ stage.Nowhere }
        requires op { CanBegin self.old.table.inode_count op.now }
        requires may { MayBegin self.old.volume.log pid }
        ensures group { result ≡ (begun self.old.volume.log pid).opened }
        ensures store { self.new ≡ with_begun self.old pid op.now }
        ensures files { KeepsFiles D.image self.old self.new }
    {
        self.volume.known();
        let stage = first_stage(op, self.inodes.inode_count());
        self.tasks.begin(pid, op, stage, None);
        open_group(&mut self.volume, pid)
    }

    /// Ends the operation that a process has open in the log, whose task is over.
    pub fn end(&mut self, pid: u32) -> Ended
        requires fault { self.old.volume.fault ≡ None }
        requires pid { pid < length self.old.tasks }
        requires idle { (task self.old.tasks pid).stage ≡ stage.Nowhere }
        requires open { IsSome (used_by self.old.volume.log pid) }
        ensures answer { result ≡ end_answer self.old.volume.log }
        ensures store { self.new ≡ with_log self.old (ended self.old.volume.log pid) }
        ensures files { KeepsFiles D.image self.old self.new }
    {
        self.volume.end(pid)
    }

    /// The next step of a process's task.
    pub fn step(&mut self, pid: u32, op: &Op) -> TaskProgress
        requires fault { self.old.volume.fault ≡ None }
        requires pid { pid < length self.old.tasks }
        requires op { (task self.old.tasks pid).op ≡ Some op.now }
        ensures step { Steps D.Disk self.old pid op.now result self.new }
    {
        match self.tasks.stage(pid) {
            Stage::Nowhere => TaskProgress::Over,
            Stage::Creating(search) => {
                let was = Snapshot::of(search);
                self.search(pid, was)
            }
            Stage::Taking(lock) => {
                let lock = *lock;
                self.take(pid, op, lock)
            }
            Stage::Reading { place, reading } => {
                let (place, was) = (*place, Snapshot::of(reading));
                self.read(pid, place, was)
            }
            Stage::Delivering { place } => {
                let place = *place;
                self.deliver(pid, place)
            }
            Stage::Truncating { place, trunc } => {
                let (place, was) = (*place, Snapshot::of(trunc));
                self.truncate(pid, place, was)
            }
            Stage::Writing { place, writing } => {
                let (place, was) = (*place, Snapshot::of(writing));
                self.write(pid, op, place, was)
            }
            Stage::Setting {
                place,
                inode,
                update,
            } => {
                let (place, inode, was) = (*place, *inode, Snapshot::of(update));
                self.set_attribute(pid, place, inode, was)
            }
            Stage::Leaving { place } => {
                let place = *place;
                self.leave(pid, place)
            }
        }
    }

    // The next step of a creation's search.
    fn search(&mut self, pid: u32, search: Snapshot<Ialloc>) -> TaskProgress
        requires fault { self.old.volume.fault ≡ None }
        requires pid { pid < length self.old.tasks }
        requires at { (task self.old.tasks pid).stage ≡ stage.Creating search.value }
        ensures step { (op : Op) → (task self.old.tasks pid).op ≡ Some op
            → Steps D.Disk self.old pid op result self.new }
    {
        self.volume.known();
        self.volume.image_known();
        match over(self.tasks.search_on(&mut self.volume, pid, search)) {
            Ok(made) => {
                self.tasks.go(pid, Stage::Nowhere);
                TaskProgress::Turned(Some(reply_of(made)))
            }
            Err(progress) => progress,
        }
    }

    /// The next write of the commit that is under way.
    pub fn commit_step(&mut self) -> Committed
        requires fault { self.old.volume.fault ≡ None }
        requires busy { is_quiet self.old.volume.log.commit ≡ false }
        ensures commits { Commits D.Disk self.old result self.new }
    {
        self.volume.known();
        self.volume.commit_step()
    }
}

// What came of a machine's last step; else what its step is to the task.
pub(crate) fn over<T>(progress: Progress<T>) -> Result<T, TaskProgress>
    ensures { result ≡ over progress }
{
    match progress {
        Progress::Moved => Err(TaskProgress::Moved),
        Progress::Sleeping(why) => Err(TaskProgress::Sleeping(why)),
        Progress::Over(out) => Ok(out),
        Progress::Fault(fault) => Err(TaskProgress::Fault(fault)),
    }
}

// Who holds the buffer of a block.
fn block_holder(cache: &Cache, block: u32) -> Option<u32>
    ensures { result ≡ holder_of_slot cache.now (found cache.now block) }
{
    match cache.find(block) {
        Some(slot) => cache.holder(slot),
        None => None,
    }
}

// Where the task of an operation begins.
fn first_stage(op: &Op, inode_count: u32) -> Stage
    ensures { result ≡ first_stage op.now inode_count }
{
    match op {
        Op::Create(kind) => Stage::Creating(Ialloc::new(*kind, inode_count)),
        Op::Write(number, ..)
        | Op::Trunc(number)
        | Op::Remove(number)
        | Op::SetAttribute(number, _) => Stage::Taking(Ilock::new(*number)),
        Op::Read(..) | Op::Stat(_) => Stage::Nowhere,
    }
}

// What a creation answers whose search came to this.
fn reply_of(made: Option<u32>) -> Reply
    ensures { result ≡ reply_of made }
{
    match made {
        Some(i) => Reply::Made(i),
        None => Reply::NoInode,
    }
}

// Opens an operation of a process, which need not wait. Its group.
fn open_group<D: Disk>(volume: &mut Volume<D>, pid: u32) -> u64
    requires fault { volume.old.fault ≡ None }
    requires pid { pid < 32 }
    requires may { MayBegin volume.old.log pid }
    ensures group { result ≡ (begun volume.old.log pid).opened }
    ensures volume { volume.new ≡ record volume.old { log = begun volume.old.log pid } }
{
    match volume.begin(pid) {
        Began::Began(group) => group,
        Began::Sleeping(_) => unreachable!(),
    }
}
