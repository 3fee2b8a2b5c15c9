// A disk over a file. It keeps a copy of the blocks, which reads give; each write goes to both.
ghost use Rattle.std.specs.Prelude.{◌≡◌, ◌≢◌, ◌<◌, ◌≤◌, ◌^◌, ◌+◌, ◌*◌, ◌/◌, ◌%◌, ◌++◌, ◌↔◌, ℕ, false, true, length, replicate, refl, [], slice_get, slice_set, Some, IfOk, IfErr, IsOk, IsOkUnless, OnOk, OnErr, IsErrOf};
ghost use Rattle.std.proofs.Common.{inl};
ghost use Rattle.std.specs.List.{concat};
ghost use Rattle.std.specs.IoError.{error_kind};
ghost use Rattle.std.specs.Io.KnownBytes.{Consumes};
ghost use Rattle.blocks.specs.Block.{zero_block, block_size};
ghost use Rattle.blocks.specs.Calls.{HasCountsOf, Holds, IsPlain, ReadsOne, SyncsOne, WritesOne};
ghost use Rattle.blocks.specs.Disk.{Elapses, IsImage};
ghost use Rattle.blocks.specs.File.{IsReadFrom, IsWrittenAt, is_disk_size};
ghost use Rattle.blocks.specs.Held.{IsShadow, LeftSince};
ghost use Rattle.blocks.specs.Lemmas.Held.{left_whole, shadow_has, shadow_now, shadow_plain};

use crate::floating::Shadow;
use crate::{
    BLOCK_SIZE, Block, Disk, DiskFault, FileFault, MemDisk, NoMemory, Placed, PlacedRead, SyncFault,
};
use std::alloc::Global;
use std::fs::OpenOptions;
use std::io;
use std::io::ErrorKind;
use std::rt::Files;

/// The most blocks of a file that is opened as a disk.
pub const MAX_BLOCKS: u32 = 8191;

// The most blocks that one read of a file gives.
const PIECE: u32 = 64;

/// A disk over a file `F`, in which block b stands at byte 1024 * b. The file is read once, when
/// it is opened; reads are answered from a copy in memory, and a write goes to the file first.
///
/// It is a plain disk, whose writes are taken to reach the file in their order; or, after
/// `hold_back`, one that holds them back: a stop of the system leaves of each block what was written
/// last, or what it held at some moment since the last sync. By its code a sync of either syncs the
/// file.
///
/// Contracts speak of the copy, and of the file's bytes where it tells these: they are the copy's
/// until a write fails. Which bytes then stand at its place is the system's affair.
#[derive(Drop)]
pub struct FileDisk<F> {
    copy: MemDisk,
    file: F,
    faults: u64,
    // Whether what is written may be lost up to the next sync.
    holds: bool,
    shadow: Shadow,
    ghost faults_fit: { faults < 2 ^ 64 },
    ghost shadowed: { IsShadow holds copy.blocks.items shadow },
}

impl<F: PlacedRead + Drop> FileDisk<F> {
    ghost use Rattle.blocks.specs.FileDisk.{IsFirstRead, IsZeroed, Mirrors, file_of};
    ghost use Rattle.blocks.specs.Placed.{AllRemain, BecomesZero, IsLength};

    /// The disk that the file at this path holds, opened for reading and writing. It has 1 to
    /// `MAX_BLOCKS` blocks.
    ///
    /// # Errors
    ///
    /// The first of these. `Open` where the file can't be opened, as a directory can't; `Length`
    /// where its length is not a whole number of blocks, from 1 to `MAX_BLOCKS`; `NoMemory` where
    /// memory for the blocks, or for the system's own use, is refused; `Open` where the file can't
    /// be read. A device has the length up to its end.
    pub fn open<R: Files<File = F> + AllocGlobal>(
        rt: &R,
        path: &str,
    ) -> Result<FileDisk<F>, FileFault>
        ensures { IfOk result (IsFirstRead F.remaining ⟦<FileDisk<F> as Disk>⟧) }
    {
        FileDisk::whole_file(rt.alloc(), open_file(rt, path, true)?)
    }

    /// As `open`, for a file that is only to be read: the system refuses each write of this disk.
    ///
    /// # Errors
    ///
    /// As those of `open`; `Open` only where the file can't be opened for reading.
    pub fn open_to_read<R: Files<File = F> + AllocGlobal>(
        rt: &R,
        path: &str,
    ) -> Result<FileDisk<F>, FileFault>
        ensures { IfOk result (IsFirstRead F.remaining ⟦<FileDisk<F> as Disk>⟧) }
    {
        FileDisk::whole_file(rt.alloc(), open_file(rt, path, false)?)
    }

    /// The disk that a file holds which was just opened: it is read from its start to its end.
    ///
    /// # Errors
    ///
    /// As those of `open` over an opened file.
    pub fn whole_file(alloc: Global, mut file: F) -> Result<FileDisk<F>, FileFault>
        ensures read { IfOk result (IsFirstRead F.remaining ⟦<FileDisk<F> as Disk>⟧) }
        ensures mirrors { AllRemain (F.bytes file) (F.remaining file)
            → IfOk result (Mirrors F.bytes ⟦<FileDisk<F> as Disk>⟧) }
    {
        let size = file.byte_count().map_err(fault_of)?;
        FileDisk::over_file(alloc, file, size)
    }

    /// The disk that an opened file of this many bytes holds. It is read from where it stands, at
    /// its start, to its end.
    ///
    /// # Errors
    ///
    /// The first of these. `Length` where the bytes are not a whole number of blocks, from 1 to
    /// `MAX_BLOCKS`; `NoMemory` where memory for the blocks is refused; `Open`, or `NoMemory` where
    /// the system says so, where the file can't be read.
    pub fn over_file(alloc: Global, mut file: F, size: u64) -> Result<FileDisk<F>, FileFault>
        ensures size { IfOk result
            (λ disk. size ≡ length (⟦<FileDisk<F> as Disk>⟧.image disk) * block_size) }
        ensures refused { IsErrOf result FileFault.Length ↔ (is_disk_size size ≡ false) }
        ensures bytes { IfOk result
            (λ disk. Consumes (F.remaining file) (F.remaining (file_of disk))
            (concat (⟦<FileDisk<F> as Disk>⟧.image disk))) }
        ensures writes { IfOk result (λ disk. ⟦<FileDisk<F> as Disk>⟧.write_count disk ≡ 0) }
        ensures faults { IfOk result (λ disk. ⟦<FileDisk<F> as Disk>⟧.fault_count disk ≡ 0) }
        ensures plain { IfOk result (λ disk. IsPlain ⟦<FileDisk<F> as Disk>⟧ disk) }
        ensures mirrors { AllRemain (F.bytes file) (F.remaining file) → IsLength (F.bytes file) size
            → IfOk result (Mirrors F.bytes ⟦<FileDisk<F> as Disk>⟧) }
    {
        let count = blocks_of_length(size)?;
        let blocks = read_blocks(alloc, &mut file, count)?;
        Ok(FileDisk::over(MemDisk::of(alloc, blocks, count), file))
    }

    /// A disk of this many blocks of zeroes, in a new file at this path, which takes the place of
    /// one that stands there. Memory for the blocks is taken first, so that the old file is kept
    /// where it is refused. A device of just that length is filled with zeroes.
    ///
    /// # Errors
    ///
    /// `NoMemory` where memory is refused; `Open` where the file can't be made or given its
    /// length, as a device of another length can't.
    pub fn create<R: Files<File = F> + AllocGlobal>(
        rt: &R,
        path: &str,
        size: u32,
    ) -> Result<FileDisk<F>, FileFault>
        ensures made { IfOk result (IsZeroed size ⟦<FileDisk<F> as Disk>⟧) }
        ensures mirrors { IfOk result (Mirrors F.bytes ⟦<FileDisk<F> as Disk>⟧) }
        ensures exists { IfErr result (λ fault. fault ≢ FileFault.Exists) }
        ensures err { IfErr result (λ fault. fault ≢ FileFault.Length) }
    {
        let copy = MemDisk::new(rt.alloc(), size)?;
        let file = OpenOptions::new()
            .read(true)
            .write(true)
            .create(true)
            .truncate(true)
            .open(rt, path)
            .map_err(fault_of)?;
        FileDisk::sized(copy, file)
    }

    /// A disk of this many blocks of zeroes in an opened file, whose bytes are lost. A device of just
    /// that length is filled with zeroes. Memory for the blocks is taken first, so that the file is as
    /// it was where it is refused.
    ///
    /// # Errors
    ///
    /// `NoMemory` where memory is refused; `Open` where the file can't be given its length.
    pub fn zeroed(alloc: Global, file: F, size: u32) -> Result<FileDisk<F>, FileFault>
        ensures made { IfOk result (IsZeroed size ⟦<FileDisk<F> as Disk>⟧) }
        ensures mirrors { IfOk result (Mirrors F.bytes ⟦<FileDisk<F> as Disk>⟧) }
        ensures bytes { IfOk result (λ disk.
            BecomesZero (F.bytes file) (F.bytes (file_of disk)) (size * block_size)) }
        ensures exists { IfErr result (λ fault. fault ≢ FileFault.Exists) }
        ensures err { IfErr result (λ fault. fault ≢ FileFault.Length) }
    {
        let copy = MemDisk::new(alloc, size)?;
        FileDisk::sized(copy, file)
    }

    /// As `create`, in a file that wasn't there before.
    ///
    /// # Errors
    ///
    /// `NoMemory` where memory is refused; `Exists` where the system says that something has this
    /// name, be it a link that leads nowhere; `Open` where the file can't be made or given its length.
    pub fn create_new<R: Files<File = F> + AllocGlobal>(
        rt: &R,
        path: &str,
        size: u32,
    ) -> Result<FileDisk<F>, FileFault>
        ensures made { IfOk result (IsZeroed size ⟦<FileDisk<F> as Disk>⟧) }
        ensures mirrors { IfOk result (Mirrors F.bytes ⟦<FileDisk<F> as Disk>⟧) }
        ensures err { IfErr result (λ fault. fault ≢ FileFault.Length) }
    {
        let blocks = MemDisk::new(rt.alloc(), size)?;
        let file = OpenOptions::new()
            .read(true)
            .write(true)
            .create_new(true)
            .open(rt, path)
            .map_err(fault_of_new)?;
        FileDisk::sized(blocks, file)
    }

    // The disk of these blocks in a new file, which gets its length.
    fn sized(copy: MemDisk, mut file: F) -> Result<FileDisk<F>, FileFault>
        ensures copy { IfOk result (λ disk. disk.copy ≡ copy) }
        ensures bytes { IfOk result (λ disk. BecomesZero (F.bytes file) (F.bytes disk.file)
            (length copy.blocks.items * block_size)) }
        ensures faults { IfOk result (λ disk. disk.faults ≡ 0) }
        ensures plain { IfOk result (λ disk. disk.holds ≡ false) }
        ensures exists { IfErr result (λ fault. fault ≢ FileFault.Exists) }
        ensures err { IfErr result (λ fault. fault ≢ FileFault.Length) }
    {
        file.become_zero(copy.size()).map_err(fault_of)?;
        Ok(FileDisk::over(copy, file))
    }
}

impl<F: Placed + Drop> FileDisk<F> {
    ghost use Rattle.blocks.specs.FileDisk.{file_of};

    /// The same disk, which from here on holds its writes back until a sync. What was written to the
    /// file earlier, by another process, say, may be held back still: up to the first sync a stop may
    /// leave more than what reads give. A disk that holds them back already stays as it is.
    pub fn hold_back(self) -> FileDisk<F>
        ensures holds { Holds ⟦<FileDisk<F> as Disk>⟧ result }
        ensures same { Holds ⟦<FileDisk<F> as Disk>⟧ self → result ≡ self }
        ensures image { ⟦<FileDisk<F> as Disk>⟧.image result
            ≡ ⟦<FileDisk<F> as Disk>⟧.image self }
        ensures time { Elapses (⟦<FileDisk<F> as Disk>⟧.moment self)
            (⟦<FileDisk<F> as Disk>⟧.moment result) (⟦<FileDisk<F> as Disk>⟧.leaves self)
            (⟦<FileDisk<F> as Disk>⟧.leaves result) }
        ensures file { file_of result ≡ file_of self }
        ensures counts { HasCountsOf ⟦<FileDisk<F> as Disk>⟧ self result }
    {
        let FileDisk {
            copy,
            file,
            faults,
            shadow,
            ..
        } = self;
        FileDisk {
            copy,
            file,
            faults,
            holds: true,
            shadow,
        }
    }
}

impl<F> FileDisk<F> {
    ghost use Rattle.blocks.specs.FileDisk.{file_of};

    /// The file below it.
    pub fn into_file(self) -> F
        ensures { result ≡ file_of self }
    {
        let FileDisk { file, .. } = self;
        file
    }

    // A disk over a file that holds the blocks of the copy.
    fn over(copy: MemDisk, file: F) -> FileDisk<F>
        ensures copy { result.copy ≡ copy }
        ensures file { result.file ≡ file }
        ensures faults { result.faults ≡ 0 }
        ensures plain { result.holds ≡ false }
    {
        let shadow = Shadow::over(copy.blocks());
        FileDisk {
            copy,
            file,
            faults: 0,
            holds: false,
            shadow,
        }
    }
}

// The file at this path, opened for reading, and for writing where it is to be written.
fn open_file<R: Files>(rt: &R, path: &str, writes: bool) -> Result<R::File, FileFault> {
    OpenOptions::new()
        .read(true)
        .write(writes)
        .open(rt, path)
        .map_err(fault_of)
}

// What an error of the system's means: memory that it was refused, or a file that can't be used.
fn fault_of(error: io::Error) -> FileFault
    ensures memory { error_kind error ≡ ErrorKind.OutOfMemory → result ≡ FileFault.NoMemory }
    ensures other { error_kind error ≢ ErrorKind.OutOfMemory → result ≡ FileFault.Open }
{
    match error.kind() {
        ErrorKind::OutOfMemory => FileFault::NoMemory,
        _ => FileFault::Open,
    }
}

// What an error of the system's means where a new file was asked for.
fn fault_of_new(error: io::Error) -> FileFault
    ensures exists { error_kind error ≡ ErrorKind.AlreadyExists ↔ (result ≡ FileFault.Exists) }
    ensures err { result ≢ FileFault.Length }
{
    match error.kind() {
        ErrorKind::AlreadyExists => FileFault::Exists,
        _ => fault_of(error),
    }
}

// The number of blocks of a file with this many bytes.
fn blocks_of_length(length: u64) -> Result<u32, FileFault>
    ensures bytes { IfOk result (λ size. length ≡ size * block_size) }
    ensures some { IfOk result (λ size. 1 ≤ size) }
    ensures at_most { IfOk result (λ size. size ≤ MAX_BLOCKS) }
    ensures refused { IsErrOf result FileFault.Length ↔ (is_disk_size length ≡ false) }
    ensures err { IsOkUnless result FileFault.Length }
{
    let size = length / BLOCK_SIZE as u64;
    if length % BLOCK_SIZE as u64 != 0 || size == 0 || size > MAX_BLOCKS as u64 {
        return Err(FileFault::Length);
    }
    Ok(size as u32)
}

// Reads so many blocks, some with each read.
fn read_blocks<F: PlacedRead>(
    alloc: Global,
    file: &mut F,
    size: u32,
) -> Result<Vec<[u8; BLOCK_SIZE]>, FileFault>
    ensures size { IfOk result (λ blocks. length blocks.items ≡ size) }
    ensures image { IfOk result (λ blocks. IsImage blocks.items) }
    ensures bytes { IfOk result (λ blocks. Consumes (F.remaining file.old) (F.remaining file.new)
        (concat blocks.items)) }
    ensures same { F.bytes file.new ≡ F.bytes file.old }
    ensures err { IfErr result (λ fault. fault ≢ FileFault.Length) }
{
    let mut piece = zeroes(alloc, PIECE as usize * BLOCK_SIZE)?;
    let mut blocks = room(alloc, size)?;
    let mut left = size;
    while left > 0 {
        let count = left.min(PIECE);
        let bytes = &mut piece[..count as usize * BLOCK_SIZE];
        file.read_next(bytes).map_err(fault_of)?;
        add_blocks(&mut blocks, bytes)?;
        left -= count;
    }
    Ok(blocks)
}

// This many bytes, all zero.
fn zeroes(alloc: Global, count: usize) -> Result<Vec<u8>, NoMemory>
    ensures { IfOk result (λ bytes. length bytes.items ≡ count) }
{
    Ok(vec![in alloc; 0; count]?)
}

// Room for so many blocks.
fn room(alloc: Global, size: u32) -> Result<Vec<[u8; BLOCK_SIZE]>, NoMemory>
    ensures { IfOk result (λ blocks. blocks.items ≡ []) }
{
    Ok(Vec::with_capacity(alloc, size as usize)?)
}

// Adds the blocks that these bytes make, one after another.
fn add_blocks(blocks: &mut Vec<[u8; BLOCK_SIZE]>, bytes: &[u8]) -> Result<(), NoMemory>
    requires size { length bytes.now % block_size ≡ 0 }
    requires image { IsImage blocks.old.items }
    ensures size { OnOk result
        (length blocks.new.items ≡ length blocks.old.items + length bytes.now / block_size) }
    ensures image { OnOk result (IsImage blocks.new.items) }
    ensures bytes { OnOk result (concat blocks.new.items ≡ concat blocks.old.items ++ bytes.now) }
{
    let (whole, _) = bytes.as_chunks::<BLOCK_SIZE>();
    blocks.extend_from_slice(whole)?;
    Ok(())
}

impl<F: Placed + Drop> Disk for FileDisk<F> {
    ghost use Rattle.blocks.specs.Memory.{writes_fit};
    ghost use Rattle.blocks.specs.FileDisk.{Mirrors, file_of};
    ghost use Rattle.blocks.specs.Placed.{WritesInPlace};

    type Name = bool;

    ghost name = { λ d. d.holds };

    ghost image = { λ d. ⟦<MemDisk as Disk>⟧.image d.copy };

    ghost moment = { λ d. length d.shadow.past };

    ghost leaves = { λ d. LeftSince d.shadow };

    ghost write_count = { λ d. ⟦<MemDisk as Disk>⟧.write_count d.copy };

    ghost fault_count = { λ d. d.faults };

    ghost sync_count = { λ d. ⟦<MemDisk as Disk>⟧.sync_count d.copy };

    ghost holding = { λ n. n };

    ghost is_image = { λ d. d.copy.is_image };

    ghost leaves_images = { λ d. left_whole d.holds d.copy.blocks.items d.shadow d.shadowed };

    ghost counts_fit = { λ d. (writes_fit d.copy, d.faults_fit, d.copy.syncs_fit) };

    ghost counts_now = { λ d t x le left.
        shadow_now d.holds d.copy.blocks.items d.shadow d.shadowed t x left };

    ghost has_now = { λ d. shadow_has d.holds d.copy.blocks.items d.shadow d.shadowed };

    ghost only_now = { λ d. shadow_plain d.holds d.copy.blocks.items d.shadow d.shadowed };

    fn size(&self) -> u32 {
        self.copy.size()
    }

    fn writes(&self) -> u64 {
        self.copy.writes()
    }

    fn faults(&self) -> u64 {
        self.faults
    }

    fn syncs(&self) -> u64 {
        self.copy.syncs()
    }

    fn holds(&self) -> bool {
        self.holds
    }

    /// Leaves the file's bytes alone.
    fn sync(&mut self) -> Result<(), SyncFault>
        // As of each disk.
        ensures syncs { SyncsOne ⟦<FileDisk<F> as Disk>⟧ result self.old self.new }

        // Of this one.
        ensures file { file_of self.new ≡ file_of self.old }
    {
        if self.file.sync().is_err() {
            self.faults = self.faults.saturating_add(1);
            return Err(SyncFault);
        }
        self.shadow.settle(self.copy.blocks());
        self.copy.sync()
    }

    /// Never fails, and leaves the file alone.
    fn read(&mut self, block: u32, into: &mut Block) -> Result<(), DiskFault>
        requires { block < length (⟦<FileDisk<F> as Disk>⟧.image self.old) }

        // As of each disk.
        ensures reads { ReadsOne ⟦<FileDisk<F> as Disk>⟧ block into.new result self.old self.new }
        ensures fault { IfErr result (λ fault. fault.0 ≡ block) }

        // Of this one.
        ensures succeeds { IsOk result }
        ensures file { file_of self.new ≡ file_of self.old }
    {
        self.copy.read(block, into)
    }

    /// Fails where the file can't be written at the block's place. Reads then still give the
    /// block as it was. No other byte of the file is changed.
    fn write(&mut self, block: u32, from: &Block) -> Result<(), DiskFault>
        requires { block < length (⟦<FileDisk<F> as Disk>⟧.image self.old) }

        // As of each disk.
        ensures writes { WritesOne ⟦<FileDisk<F> as Disk>⟧ block from.now result self.old self.new }
        ensures fault { IfErr result (λ fault. fault.0 ≡ block) }

        // Of this one.
        ensures file { OnOk result (IsWrittenAt F.position F.contents
            (file_of self.old) (file_of self.new) (block * block_size) from.now) }
        ensures bytes { WritesInPlace (F.bytes (file_of self.old)) (F.bytes (file_of self.new))
            (block * block_size) from.now result }
        ensures mirrors { OnOk result (Mirrors F.bytes ⟦<FileDisk<F> as Disk>⟧ self.old
            → Mirrors F.bytes ⟦<FileDisk<F> as Disk>⟧ self.new) }
        ensures keeps { OnErr result
            (⟦<FileDisk<F> as Disk>⟧.image self.new ≡ ⟦<FileDisk<F> as Disk>⟧.image self.old) }
    {
        let place = block as u64 * BLOCK_SIZE as u64;
        if self.file.write_at(place, from.as_slice()).is_err() {
            self.faults = self.faults.saturating_add(1);
            return Err(DiskFault(block));
        }
        self.copy.write(block, from)?;
        self.shadow
            .write(self.holds, block, from, self.copy.blocks());
        Ok(())
    }
}
