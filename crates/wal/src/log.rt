// The log: which blocks belong to the open group, and how far its commit is.
ghost use Rattle.std.specs.Prelude.{◌≡◌, ◌≢◌, ◌<◌, ◌≤◌, ◌+◌, ◌==◌, ◌^◌, false, length, slice_set, Some, None, IsSome, IsTrue, ◌↔◌, IfOk, IfErr, OnOk, OnErr, true, if◌then◌else◌};
ghost use Rattle.bcache.specs.Buffers.{buffer, block_or_zero, found};
ghost use Rattle.blocks.specs.Block.{zero_block};
ghost use Rattle.blocks.specs.Calls.{SyncsOne, WritesOne};
ghost use Rattle.model.specs.Format.{log_capacity, inode_start};
ghost use Rattle.model.specs.Codec.{header_block};
ghost use Rattle.model.specs.Layout.{is_lawful_super};
ghost use Rattle.wal.specs.Joint.{Joint, place_at, source_at, stepped_at, synced_at, written_cache, bytes_found, unpinned_found, HasPin, IsPinned, IsWithin};
ghost use Rattle.wal.specs.Deeds.{commit_deed};
ghost use Rattle.wal.specs.Floats.{AreAfloat};
ghost use Rattle.wal.specs.Step.{CommitSteps, CommitSyncs, CommitWrites, answer_at, answer_synced};
ghost use Rattle.wal.specs.declared.types.Part.TheVariants as part;
ghost use Rattle.wal.specs.Machine.{IsLog, is_quiet, is_writing, new_log, begin_cause, begin_answer, after_begin, begun, used_by, HasRoom, MayLog, HasSlot, is_among, MayPin, one_used, appended, noted, noted_cache, ended, end_answer};

use crate::{Began, Commit, CommitDeed, Committed, DeviceFault, Ended, Part};
use arrayvec::ArrayVec;
use bcache::Cache;
use blocks::{Block, Disk, DiskFault, NoMemory};
use layout::header::Header;
use layout::{LOG_CAPACITY, Super};
use model::types::Why;
use std::alloc::Global;
use std::marker::Model;

// The processes.
const PROCESSES: usize = 32;

/// The log of a file system, as it stands in memory: the homes of the open group, the operations
/// that are open, and how far a commit is (the xv6 book, the chapter "File system": "Logging
/// layer" and "Code: logging"). The homes and all that open operations may still add are at most
/// 30.
///
/// That no call but `new` takes memory is tested.
#[derive(Drop)]
pub struct Log {
    size: u32,
    header: Header,
    used: [Option<u8>; PROCESSES],
    outstanding: u32,
    opened: u64,
    committed: u64,
    commit: Commit,
    // The block from which a header is written.
    made: Block,
    empty: Block,
}

impl Model for Log {
    ghost use Rattle.wal.specs.Machine.{LogState};
    ghost use Rattle.wal.specs.Fields.{IsWhole};

    ghost Value = { LogState };

    ghost view = { λ l. record {
      size = l.size;
      homes = l.header.homes.items;
      used = l.used;
      outstanding = l.outstanding;
      opened = l.opened;
      committed = l.committed;
      commit = l.commit;
    } };

    ghost invariant = { λ l. IsWhole l.header l.empty (record {
      size = l.size;
      homes = l.header.homes.items;
      used = l.used;
      outstanding = l.outstanding;
      opened = l.opened;
      committed = l.committed;
      commit = l.commit;
    }) };
}

impl Log {
    /// The log of an image with this lawful superblock, where nothing is logged. It makes the
    /// blocks from which headers are written.
    ///
    /// # Errors
    ///
    /// `NoMemory` where the allocator refuses the two blocks.
    pub fn new(alloc: Global, sup: &Super) -> Result<Log, NoMemory>
        requires { IsTrue (is_lawful_super sup.now sup.now.size) }
        ensures { IfOk result (λ log. log ≡ new_log sup.now.size) }
    {
        let made = Block::zeroed(alloc)?;
        let empty = Block::zeroed(alloc)?;
        Ok(Log::over(sup.size, made, empty))
    }

    // A log to which nothing was written, with the blocks for its headers.
    fn over(size: u32, made: Block, empty: Block) -> Log
        requires long { inode_start ≤ size }
        requires empty { empty ≡ zero_block }
        ensures { result ≡ new_log size }
    {
        Log {
            size,
            header: Header {
                n: 0,
                homes: ArrayVec::new(),
            },
            used: [None; PROCESSES],
            outstanding: 0,
            opened: 0,
            committed: 0,
            commit: Commit::Quiet,
            made,
            empty,
        }
    }

    /// Does nothing: it says what is true of every log.
    pub fn known(&self)
        ensures { IsLog self.now }
    {
        let _ = &self.size;
    }

    /// The homes of the group that is open or being committed, in the order of logging.
    pub fn homes(&self) -> &[u32]
        ensures { result.now ≡ self.now.homes }
    {
        self.header.homes.as_slice()
    }

    /// The blocks of the image.
    pub fn size(&self) -> u32
        ensures { result ≡ self.now.size }
    {
        self.size
    }

    /// How many homes the operation that a process has open added; None where it has none open.
    pub fn used(&self, pid: u32) -> Option<u8>
        requires { pid < 32 }
        ensures { result ≡ used_by self.now pid }
    {
        self.used[pid as usize]
    }

    /// Whether a process has an operation open that may add a home.
    pub fn has_room(&self, pid: u32) -> bool
        requires { pid < 32 }
        ensures { IsTrue result ↔ HasRoom (used_by self.now pid) }
    {
        match self.used[pid as usize] {
            Some(count) => count < 10,
            None => false,
        }
    }

    /// The open operations.
    pub fn outstanding(&self) -> u32
        ensures { result ≡ self.now.outstanding }
    {
        self.outstanding
    }

    /// How many groups were opened. The newest has this number.
    pub fn opened(&self) -> u64
        ensures { result ≡ self.now.opened }
    {
        self.opened
    }

    /// How many groups are committed: all up to that of this number.
    pub fn committed(&self) -> u64
        ensures { result ≡ self.now.committed }
    {
        self.committed
    }

    /// Where a commit stands.
    pub fn commit(&self) -> Commit
        ensures { result ≡ self.now.commit }
    {
        self.commit
    }

    /// What the next step of a commit does; None where none is under way.
    pub fn deed(&self) -> Option<CommitDeed>
        ensures { result ≡ commit_deed self.now }
    {
        let homes = self.header.homes.as_slice();
        match self.commit {
            Commit::Quiet => None,
            Commit::Logging(place) => Some(CommitDeed::LogBlock {
                place,
                home: homes[place as usize],
            }),
            Commit::Heading => Some(CommitDeed::Header {
                count: self.header.n,
                group: self.opened,
            }),
            Commit::Homing(place) => Some(CommitDeed::Home {
                block: homes[place as usize],
            }),
            Commit::Clearing => Some(CommitDeed::Clear),
            Commit::Syncing(part) => Some(CommitDeed::Sync(part)),
        }
    }

    /// Why an operation would have to sleep before it begins: `Committing` while a commit is under
    /// way; else `LogFull` where the homes and ten for each open operation and one more would be
    /// over 30. None where `begin` lets it begin.
    pub fn may_begin(&self) -> Option<Why>
        ensures { result ≡ begin_cause self.now }
    {
        if !is_quiet(self.commit) {
            return Some(Why::Committing);
        }
        let reserved = self.header.homes.len() as u64 + (self.outstanding as u64 + 1) * 10;
        if reserved > LOG_CAPACITY as u64 {
            return Some(Why::LogFull);
        }
        None
    }

    /// Opens an operation of a process that has none open (`begin_op`), or says why it has to
    /// sleep, as `may_begin` does. It may add ten homes. Where no other is open, a new group begins
    /// with it.
    pub fn begin(&mut self, pid: u32) -> Began
        requires pid { pid < 32 }
        requires none { used_by self.old pid ≡ None }
        requires opened { begin_cause self.old ≡ None → self.old.outstanding ≡ 0
            → self.old.opened + 1 < 2 ^ 64 }
        ensures answer { result ≡ begin_answer self.old pid }
        ensures log { self.new ≡ after_begin self.old pid }
    {
        match self.may_begin() {
            Some(cause) => Began::Sleeping(cause),
            None => Began::Began(self.open(pid)),
        }
    }

    // Opens an operation, and answers its group.
    fn open(&mut self, pid: u32) -> u64
        requires pid { pid < 32 }
        requires none { used_by self.old pid ≡ None }
        requires opened { self.old.outstanding ≡ 0 → self.old.opened + 1 < 2 ^ 64 }
        requires free { begin_cause self.old ≡ None }
        ensures group { result ≡ (begun self.old pid).opened }
        ensures log { self.new ≡ begun self.old pid }
    {
        self.opened = next_group(self.outstanding, self.opened);
        self.outstanding += 1;
        self.used[pid as usize] = Some(0);
        self.opened
    }

    /// Adds the block of a slot that the process holds to the open group (`log_write`): where it is
    /// not among the homes yet, it becomes one and its buffer is pinned until it was written home.
    /// The operation added fewer than ten. A block that is among the homes adds nothing, and then
    /// its pins may be any number.
    pub fn log_write(&mut self, pid: u32, cache: &mut Cache, slot: u32)
        requires logs { MayLog self.old pid }
        requires has { HasSlot cache.old pid slot }
        requires behind { inode_start ≤ block_or_zero (buffer cache.old slot).block }
        requires within { block_or_zero (buffer cache.old slot).block < self.old.size }
        requires few { MayPin self.old cache.old slot }
        ensures log { self.new ≡ noted self.old pid (block_or_zero (buffer cache.old slot).block) }
        ensures cache { cache.new ≡ noted_cache self.old cache.old slot
            (block_or_zero (buffer cache.old slot).block) }
    {
        let Some(block) = cache.block(slot) else {
            unreachable!();
        };
        if !self.note(pid, block) {
            cache.pin(slot);
        }
    }

    // Adds a home, and answers whether it was one already.
    fn note(&mut self, pid: u32, block: u32) -> bool
        requires logs { MayLog self.old pid }
        requires behind { inode_start ≤ block }
        requires within { block < self.old.size }
        ensures answer { result ≡ is_among block self.old.homes }
        ensures log { self.new ≡ noted self.old pid block }
    {
        if has_home(self.header.homes.as_slice(), block) {
            return true;
        }
        self.append(pid, block);
        false
    }

    fn append(&mut self, pid: u32, block: u32)
        requires logs { MayLog self.old pid }
        requires behind { inode_start ≤ block }
        requires within { block < self.old.size }
        requires other { is_among block self.old.homes ≡ false }
        ensures { self.new ≡ appended self.old pid block }
    {
        self.header.homes.push(block);
        self.header.n += 1;
        self.used[pid as usize] = one_more(self.used[pid as usize]);
    }

    /// Ends the operation that a process has open (`end_op`). Where it was the last one, its group
    /// is closed: with homes the commit of the group begins, and the answer is `Commit`; without
    /// any the group is committed at once, as `committed` then says.
    pub fn end(&mut self, pid: u32) -> Ended
        requires pid { pid < 32 }
        requires open { IsSome (used_by self.old pid) }
        ensures answer { result ≡ end_answer self.old }
        ensures log { self.new ≡ ended self.old pid }
    {
        self.outstanding -= 1;
        self.used[pid as usize] = None;
        if self.outstanding > 0 {
            return Ended::Left;
        }
        if self.header.homes.is_empty() {
            self.committed = self.opened;
            return Ended::Left;
        }
        self.commit = Commit::Logging(0);
        Ended::Commit
    }
}

impl Log {
    /// Makes the next write of a commit that is under way: the log blocks of the homes from block 3
    /// on, then the header with the homes in block 2, with which the group is committed
    /// (`Durable`, with its number), then the homes themselves, each unpinned with its write, and
    /// last an empty header (`Done`); else `More`. So a commit of n blocks is 2n + 2 writes. Blocks
    /// are written from their buffers, by its code without a read.
    ///
    /// A disk that holds writes back is synced behind each of these four parts, by a step of its
    /// own: the group is committed with the sync behind the header, and the last sync is `Done`.
    ///
    /// A crash during the step leaves what recovery turns into what was committed before it, or
    /// into the closed group: that only at the header, or while the header waits for its sync.
    ///
    /// `Fault` where the disk failed: buffers and log are as before, and of a write the block is as
    /// it was or as it was to be.
    pub fn commit_step<D: Disk>(&mut self, cache: &mut Cache, disk: &mut D) -> Committed
        requires busy { is_quiet self.old.commit ≡ false }
        requires joint { Joint (D.image disk.old) cache.old self.old }
        requires floats { AreAfloat self.old.commit (D.image disk.old) self.old.homes
            (D.leaves disk.old (D.moment disk.old)) }
        ensures step { CommitSteps D.Disk disk.old cache.old self.old result disk.new cache.new
            self.new }
    {
        match self.commit {
            Commit::Syncing(part) => self.sync_part(part, cache, disk),
            _ => self.write_part(cache, disk),
        }
    }

    // Makes the next write of a commit.
    fn write_part<D: Disk>(&mut self, cache: &mut Cache, disk: &mut D) -> Committed
        requires writing { is_writing self.old.commit ≡ true }
        requires joint { Joint (D.image disk.old) cache.old self.old }
        requires floats { AreAfloat self.old.commit (D.image disk.old) self.old.homes
            (D.leaves disk.old (D.moment disk.old)) }
        ensures write { CommitWrites D.Disk disk.old cache.old self.old result disk.new cache.new
            self.new }
    {
        match self.write_next(cache, disk) {
            Ok(()) => self.go_on(cache, disk.holds()),
            Err(fault) => Committed::Fault(DeviceFault::Block(fault)),
        }
    }

    // Syncs a part of a commit.
    fn sync_part<D: Disk>(&mut self, part: Part, cache: &Cache, disk: &mut D) -> Committed
        requires syncing { self.old.commit ≡ Commit.Syncing part }
        requires joint { Joint (D.image disk.old) cache.now self.old }
        ensures sync { CommitSyncs D.Disk part disk.old cache.now self.old result disk.new
            cache.now self.new }
    {
        match disk.sync() {
            Ok(()) => self.pass(part),
            Err(fault) => Committed::Fault(DeviceFault::Sync(fault)),
        }
    }

    // Goes on after a sync.
    fn pass(&mut self, part: Part) -> Committed
        requires syncing { self.old.commit ≡ Commit.Syncing part }
        ensures answer { result ≡ answer_synced part self.old.opened }
        ensures log { self.new ≡ synced_at part self.old }
    {
        match part {
            Part::Log => {
                self.commit = Commit::Heading;
                Committed::More
            }
            Part::Header => {
                self.committed = self.opened;
                self.commit = Commit::Homing(0);
                Committed::Durable(self.opened)
            }
            Part::Homes => {
                self.commit = Commit::Clearing;
                Committed::More
            }
            Part::Clear => {
                self.header.n = 0;
                self.header.homes.clear();
                self.commit = Commit::Quiet;
                Committed::Done
            }
        }
    }

    // Makes the next write, and no more.
    fn write_next<D: Disk>(&mut self, cache: &Cache, disk: &mut D) -> Result<(), DiskFault>
        requires inside { place_at self.old.commit self.old.homes < length (D.image disk.old) }
        requires pinned { IsPinned self.old.commit self.old.homes cache.now }
        ensures log { self.new ≡ self.old }
        ensures writes { WritesOne D.Disk (place_at self.old.commit self.old.homes)
            (source_at self.old.commit self.old.homes (header_block self.old.homes) cache.now)
            result disk.old disk.new }
        ensures fault { IfErr result (λ fault. fault.0 ≡ place_at self.old.commit self.old.homes) }
    {
        make_header(self.commit, &self.header, &mut self.made);
        let homes = self.header.homes.as_slice();
        let place = place(self.commit, homes);
        let source = source(self.commit, homes, cache, &self.made, &self.empty);
        disk.write(place, source)
    }

    // Goes on after a write that was made, of a disk that holds it back or doesn't.
    fn go_on(&mut self, cache: &mut Cache, holds: bool) -> Committed
        requires writing { is_writing self.old.commit ≡ true }
        requires pinned { IsPinned self.old.commit self.old.homes cache.old }
        ensures answer { result ≡ answer_at holds self.old.commit self.old.opened }
        ensures log { self.new ≡ stepped_at holds self.old.commit self.old }
        ensures cache { cache.new ≡ written_cache self.old.commit self.old.homes cache.old }
    {
        self.unpin_home(cache);
        let answer = self.answer(holds);
        self.wrote(holds);
        answer
    }

    // Unpins the home that was written.
    fn unpin_home(&self, cache: &mut Cache)
        requires pinned { IsPinned self.now.commit self.now.homes cache.old }
        ensures { cache.new ≡ written_cache self.now.commit self.now.homes cache.old }
    {
        if let Commit::Homing(k) = self.commit {
            unpin_block(cache, self.header.homes.as_slice()[k as usize]);
        }
    }

    // What a write that was made answers.
    fn answer(&self, holds: bool) -> Committed
        requires { is_writing self.now.commit ≡ true }
        ensures { result ≡ answer_at holds self.now.commit self.now.opened }
    {
        match self.commit {
            Commit::Heading if !holds => Committed::Durable(self.opened),
            Commit::Clearing if !holds => Committed::Done,
            _ => Committed::More,
        }
    }

    // The log after a write.
    fn wrote(&mut self, holds: bool)
        requires { is_writing self.old.commit ≡ true }
        ensures { self.new ≡ stepped_at holds self.old.commit self.old }
    {
        match self.commit {
            Commit::Quiet | Commit::Syncing(_) => {}
            Commit::Logging(k) => self.commit = after_log_block(k, self.header.homes.len(), holds),
            Commit::Heading => {
                if holds {
                    self.commit = Commit::Syncing(Part::Header);
                } else {
                    self.committed = self.opened;
                    self.commit = Commit::Homing(0);
                }
            }
            Commit::Homing(k) => self.commit = after_home(k, self.header.homes.len(), holds),
            Commit::Clearing => {
                if holds {
                    self.commit = Commit::Syncing(Part::Clear);
                } else {
                    self.header.n = 0;
                    self.header.homes.clear();
                    self.commit = Commit::Quiet;
                }
            }
        }
    }
}

// Makes the header's block, where that is what is written next.
fn make_header(commit: Commit, header: &Header, made: &mut Block)
    requires { header.now.n ≡ length header.now.homes.items }
    ensures { commit ≡ Commit.Heading → made.new ≡ header_block header.now.homes.items }
{
    if let Commit::Heading = commit {
        header.write(made);
    }
}

// Where the next write of a commit goes.
fn place(commit: Commit, homes: &[u32]) -> u32
    requires within { IsWithin commit homes.now }
    requires few { length homes.now ≤ log_capacity }
    ensures { result ≡ place_at commit homes.now }
{
    match commit {
        Commit::Logging(k) => 3 + k,
        Commit::Homing(k) => homes[k as usize],
        Commit::Quiet | Commit::Heading | Commit::Clearing | Commit::Syncing(_) => 2,
    }
}

// What it writes.
fn source<'a>(
    commit: Commit,
    homes: &[u32],
    cache: &'a Cache,
    made: &'a Block,
    empty: &'a Block,
) -> &'a Block
    requires within { IsWithin commit homes.now }
    requires pinned { IsPinned commit homes.now cache.now }
    requires made { commit ≡ Commit.Heading → made.now ≡ header_block homes.now }
    requires empty { empty.now ≡ zero_block }
    ensures { result.now ≡ source_at commit homes.now (header_block homes.now) cache.now }
{
    match commit {
        Commit::Logging(k) | Commit::Homing(k) => bytes_for(cache, homes[k as usize]),
        Commit::Heading => made,
        Commit::Quiet | Commit::Clearing | Commit::Syncing(_) => empty,
    }
}

fn after_log_block(k: u32, count: usize, holds: bool) -> Commit
    requires inside { k < count }
    requires few { count ≤ log_capacity }
    ensures { result ≡ (if k + 1 == count
        then (if holds then Commit.Syncing part.Log else Commit.Heading)
        else Commit.Logging (k + 1)) }
{
    if (k as usize) + 1 < count {
        return Commit::Logging(k + 1);
    }
    if holds {
        Commit::Syncing(Part::Log)
    } else {
        Commit::Heading
    }
}

fn after_home(k: u32, count: usize, holds: bool) -> Commit
    requires inside { k < count }
    requires few { count ≤ log_capacity }
    ensures { result ≡ (if k + 1 == count
        then (if holds then Commit.Syncing part.Homes else Commit.Clearing)
        else Commit.Homing (k + 1)) }
{
    if (k as usize) + 1 < count {
        return Commit::Homing(k + 1);
    }
    if holds {
        Commit::Syncing(Part::Homes)
    } else {
        Commit::Clearing
    }
}

// The buffer's bytes of a home.
fn bytes_for(cache: &Cache, home: u32) -> &Block
    requires { HasPin cache.now (found cache.now home) }
    ensures { result.now ≡ bytes_found cache.now (found cache.now home) }
{
    let Some(slot) = cache.find(home) else {
        unreachable!();
    };
    cache.data(slot)
}

fn unpin_block(cache: &mut Cache, home: u32)
    requires { HasPin cache.old (found cache.old home) }
    ensures { cache.new ≡ unpinned_found cache.old (found cache.old home) }
{
    let Some(slot) = cache.find(home) else {
        unreachable!();
    };
    cache.unpin(slot);
}

// Whether no commit is under way.
fn is_quiet(commit: Commit) -> bool
    ensures { result ≡ is_quiet commit }
{
    match commit {
        Commit::Quiet => true,
        Commit::Logging(_)
        | Commit::Heading
        | Commit::Homing(_)
        | Commit::Clearing
        | Commit::Syncing(_) => false,
    }
}

// The number of the group that an operation belongs to.
fn next_group(outstanding: u32, opened: u64) -> u64
    requires { outstanding ≡ 0 → opened + 1 < 2 ^ 64 }
    ensures { result ≡ (if outstanding == 0 then opened + 1 else opened) }
{
    if outstanding == 0 { opened + 1 } else { opened }
}

// One home more of an operation.
fn one_more(used: Option<u8>) -> Option<u8>
    requires { HasRoom used }
    ensures { result ≡ one_used used }
{
    match used {
        Some(count) => Some(count + 1),
        None => None,
    }
}

fn has_home(homes: &[u32], block: u32) -> bool
    ensures { result ≡ is_among block homes.now }
{
    homes.iter().any(|home| *home == block)
}
