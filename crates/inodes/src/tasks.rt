// What the processes' operations do next.
ghost use Rattle.std.specs.Prelude.{◌≡◌, ◌≤◌, ◌<◌, length, replicate, slice_set, Some, None, IsSome, IfSome, IfOk};
ghost use Rattle.wal.specs.Machine.{HasRoom, used_by};
ghost use Rattle.inodes.specs.declared.tasks.Stage.TheVariants as stage;
ghost use Rattle.inodes.specs.Freeing.{MayFree};
ghost use Rattle.inodes.specs.Ialloc.{MayStep};
ghost use Rattle.inodes.specs.InPlace.{SetsInPlace, ReadsInPlace, SearchesInPlace, TruncatesInPlace, WritesInPlace, freeing_at, writing_at};
ghost use Rattle.inodes.specs.Itrunc.{inode_left};
ghost use Rattle.inodes.specs.Iupdate.{MayUpdate};
ghost use Rattle.inodes.specs.Readi.{HasRoomLeft, IsReading};
ghost use Rattle.inodes.specs.Tasks.{no_task, task};
ghost use Rattle.inodes.specs.Writei.{MayWrite};

use crate::{Freeing, Ialloc, Ilock, Iupdate, Progress, Readi, Writei};
use blocks::{Disk, NoMemory};
use model::gathered::Gathered;
use model::types::{Dinode, Op};
use std::alloc::Global;
use std::marker::Model;
use std::snapshot::Snapshot;
use wal::Volume;

/// Where a process's task stands.
#[derive(Clone, Copy)]
pub enum Stage {
    /// It has none, or it is over.
    Nowhere,
    /// A creation looks for a free number.
    Creating(Ialloc),
    /// An operation takes its inode.
    Taking(Ilock),
    /// The bytes of a file are read, whose inode stands at that place of the table.
    Reading {
        place: usize,
        reading: Readi,
    },
    /// They all were read: next they are given out, and the inode at that place is given up.
    Delivering {
        place: usize,
    },
    /// The blocks of a file are freed and its inode written back, which stands at that place of the
    /// table; the reply is known.
    Truncating {
        place: usize,
        trunc: Freeing,
    },
    /// The bytes of a file are written, whose inode stands at that place of the table, and then the
    /// inode is written back. With that the reply is known.
    Writing {
        place: usize,
        writing: Writei,
    },
    /// An inode, which stands at that place of the table, is written back with an attribute
    /// set; the reply is known.
    Setting {
        place: usize,
        inode: Dinode,
        update: Iupdate,
    },
    /// The reply is known: next the inode at that place is given up.
    Leaving {
        place: usize,
    },
}

// The task of a process. It remembers its operation, without taking bytes for it.
#[derive(Drop)]
struct Task {
    op: Option<Snapshot<Op>>,
    stage: Stage,
    gathered: Option<Gathered>,
}

impl Model for Task {
    ghost use Rattle.std.specs.Option.{option_map};
    ghost use Rattle.inodes.specs.Tasks.{TaskState};

    ghost Value = { TaskState };

    ghost view = { λ t. record {
      op = option_map (λ s. s.value) t.op;
      stage = t.stage;
      gathered = t.gathered;
    } };
}

/// The tasks of some processes, which are numbered from 0. Contracts see their list.
#[derive(Drop)]
pub struct Tasks {
    tasks: Vec<Task>,
}

impl Model for Tasks {
    ghost use Rattle.std.specs.Prelude.{List};
    ghost use Rattle.inodes.specs.Tasks.{TaskState};

    ghost Value = { List TaskState };

    ghost view = { λ t. t.tasks.items };
}

impl Tasks {
    /// Processes that have none.
    ///
    /// # Errors
    ///
    /// `NoMemory` where the allocator refuses their places.
    pub fn new(alloc: Global, processes: u32) -> Result<Tasks, NoMemory>
        ensures { IfOk result (λ tasks. tasks ≡ replicate processes no_task) }
    {
        let mut tasks = Vec::new(alloc);
        for _process in 0..processes {
            tasks.push(Task {
                op: None,
                stage: Stage::Nowhere,
                gathered: None,
            })?;
        }
        Ok(Tasks { tasks })
    }

    /// How many processes there are.
    pub fn len(&self) -> usize
        ensures { result ≡ length self.now }
    {
        self.tasks.len()
    }

    /// Where a process's task stands.
    pub fn stage(&self, pid: u32) -> &Stage
        requires { pid < length self.now }
        ensures { result.now ≡ (task self.now pid).stage }
    {
        &self.tasks[pid as usize].stage
    }

    // Makes the next step of a creation's search in the task, without a copy of it. What it was is
    // told for the contract alone, here and below: no byte of it is read.
    pub(crate) fn search_on<D: Disk>(
        &mut self,
        volume: &mut Volume<D>,
        pid: u32,
        _was: Snapshot<Ialloc>,
    ) -> Progress<Option<u32>>
        requires inside { pid < length self.old }
        requires at { (task self.old pid).stage ≡ stage.Creating _was.value }
        requires fault { volume.old.fault ≡ None }
        requires pid { pid < 32 }
        requires room { HasRoom (used_by volume.old.log pid) }
        requires ready { MayStep D.image volume.old pid _was.value }
        ensures { SearchesInPlace D.Disk volume.old self.old pid _was.value result
            self.new volume.new }
    {
        let Stage::Creating(search) = &mut self.tasks[pid as usize].stage else {
            unreachable!();
        };
        search.step(volume, pid)
    }

    // Makes the next step of a reading in the task, into bytes that aren't in it.
    pub(crate) fn read_on<D: Disk>(
        &mut self,
        volume: &mut Volume<D>,
        pid: u32,
        into: &mut Gathered,
        _place: usize,
        _was: Snapshot<Readi>,
    ) -> Progress<()>
        requires inside { pid < length self.old }
        requires at { (task self.old pid).stage ≡ stage.Reading _place _was.value }
        requires fault { volume.old.fault ≡ None }
        requires ready { IsReading D.image volume.old pid _was.value }
        requires room { HasRoomLeft _was.value into.old }
        ensures { ReadsInPlace D.Disk volume.old self.old pid _place _was.value into.old result
            self.new volume.new into.new }
    {
        let Stage::Reading { reading, .. } = &mut self.tasks[pid as usize].stage else {
            unreachable!();
        };
        reading.step(volume, pid, into)
    }

    // Makes the next step of freeing a file's blocks in the task.
    pub(crate) fn trunc_on<D: Disk>(
        &mut self,
        volume: &mut Volume<D>,
        pid: u32,
        _place: usize,
        _was: Snapshot<Freeing>,
    ) -> Progress<()>
        requires inside { pid < length self.old }
        requires at { (task self.old pid).stage ≡ stage.Truncating _place _was.value }
        requires fault { volume.old.fault ≡ None }
        requires pid { pid < 32 }
        requires room { HasRoom (used_by volume.old.log pid) }
        requires ready { MayFree D.image volume.old pid _was.value }
        ensures { TruncatesInPlace D.Disk volume.old self.old pid _place _was.value result
            self.new volume.new }
    {
        let Stage::Truncating { trunc, .. } = &mut self.tasks[pid as usize].stage else {
            unreachable!();
        };
        trunc.step(volume, pid)
    }

    // What is left of the inode whose file's blocks a process freed.
    pub(crate) fn left(&self, pid: u32) -> Option<Dinode>
        requires inside { pid < length self.now }
        requires at { IsSome (freeing_at (task self.now pid).stage) }
        ensures { IfSome (freeing_at (task self.now pid).stage)
            (λ trunc. result ≡ inode_left trunc.machine) }
    {
        let Stage::Truncating { trunc, .. } = &self.tasks[pid as usize].stage else {
            unreachable!();
        };
        trunc.machine.left()
    }

    // Makes the next step of a writing in the task.
    pub(crate) fn write_on<D: Disk>(
        &mut self,
        volume: &mut Volume<D>,
        pid: u32,
        bytes: &[u8],
        _place: usize,
        _was: Snapshot<Writei>,
    ) -> Progress<()>
        requires inside { pid < length self.old }
        requires at { (task self.old pid).stage ≡ stage.Writing _place _was.value }
        requires fault { volume.old.fault ≡ None }
        requires pid { pid < 32 }
        requires room { HasRoom (used_by volume.old.log pid) }
        requires all { _was.value.count ≤ length bytes.now }
        requires ready { MayWrite D.image volume.old pid _was.value }
        ensures { WritesInPlace D.Disk volume.old self.old pid _place _was.value bytes.now result
            self.new volume.new }
    {
        let Stage::Writing { writing, .. } = &mut self.tasks[pid as usize].stage else {
            unreachable!();
        };
        writing.step(volume, pid, bytes)
    }

    // Makes the next step of writing an inode back in the task.
    pub(crate) fn set_on<D: Disk>(
        &mut self,
        volume: &mut Volume<D>,
        pid: u32,
        _place: usize,
        inode: &Dinode,
        _was: Snapshot<Iupdate>,
    ) -> Progress<()>
        requires inside { pid < length self.old }
        requires at { (task self.old pid).stage ≡ stage.Setting _place inode.now _was.value }
        requires fault { volume.old.fault ≡ None }
        requires pid { pid < 32 }
        requires room { HasRoom (used_by volume.old.log pid) }
        requires addrs { length inode.now.addrs ≡ 13 }
        requires ready { MayUpdate D.image volume.old pid _was.value }
        ensures { SetsInPlace D.Disk volume.old self.old pid _place inode.now _was.value result
            self.new volume.new }
    {
        let Stage::Setting { update, .. } = &mut self.tasks[pid as usize].stage else {
            unreachable!();
        };
        update.step(volume, pid, inode)
    }

    // The inode that a process wrote, and how many bytes.
    pub(crate) fn written(&self, pid: u32) -> (Dinode, u32)
        requires inside { pid < length self.now }
        requires at { IsSome (writing_at (task self.now pid).stage) }
        ensures { IfSome (writing_at (task self.now pid).stage)
            (λ writing. (result.0 ≡ writing.inode) × (result.1 ≡ writing.done)) }
    {
        let Stage::Writing { writing, .. } = &self.tasks[pid as usize].stage else {
            unreachable!();
        };
        (writing.inode(), writing.done())
    }

    /// A process begins the task of this operation, at that stage, with room for the bytes that it
    /// asks for.
    pub fn begin(&mut self, pid: u32, op: &Op, to: Stage, room: Option<Gathered>)
        requires { pid < length self.old }
        ensures { self.new ≡ slice_set self.old pid
            (record { op = Some op.now; stage = to; gathered = room }) }
    {
        self.tasks[pid as usize] = Task {
            op: Some(Snapshot::of(op)),
            stage: to,
            gathered: room,
        };
    }

    /// Its task goes on to that stage.
    pub fn go(&mut self, pid: u32, to: Stage)
        requires { pid < length self.old }
        ensures { self.new ≡ slice_set self.old pid (record (task self.old pid) { stage = to }) }
    {
        self.tasks[pid as usize].stage = to;
    }

    // Its task goes on with taking its inode. Where it did so before, only that is written.
    pub(crate) fn go_taking(&mut self, pid: u32, lock: Ilock)
        requires { pid < length self.old }
        ensures { self.new ≡ slice_set self.old pid
            (record (task self.old pid) { stage = stage.Taking lock }) }
    {
        match &mut self.tasks[pid as usize].stage {
            Stage::Taking(at) => *at = lock,
            at => *at = Stage::Taking(lock),
        }
    }

    /// Its task is over, and without bytes.
    pub fn finish(&mut self, pid: u32)
        requires { pid < length self.old }
        ensures { self.new ≡ slice_set self.old pid
            (record (task self.old pid) { stage = stage.Nowhere; gathered = None }) }
    {
        let task = &mut self.tasks[pid as usize];
        task.stage = Stage::Nowhere;
        task.gathered = None;
    }

    /// Takes the bytes of its task.
    pub fn take_bytes(&mut self, pid: u32) -> Gathered
        requires pid { pid < length self.old }
        requires some { IsSome (task self.old pid).gathered }
        ensures bytes { Some result ≡ (task self.old pid).gathered }
        ensures tasks { self.new
            ≡ slice_set self.old pid (record (task self.old pid) { gathered = None }) }
    {
        let Some(bytes) = self.tasks[pid as usize].gathered.take() else {
            unreachable!();
        };
        bytes
    }

    /// Its task has these bytes.
    pub fn keep_bytes(&mut self, pid: u32, bytes: Gathered)
        requires { pid < length self.old }
        ensures { self.new
            ≡ slice_set self.old pid (record (task self.old pid) { gathered = Some bytes }) }
    {
        self.tasks[pid as usize].gathered = Some(bytes);
    }
}
