// Reading the image that recovery would leave.
ghost use Rattle.std.specs.Prelude.{◌≡◌, ◌≢◌, ◌≤◌, ◌<◌, ◌+◌, None, length, max, IfErr, IfOk, IfSome, MatchResult, OnOk};
ghost use Rattle.blocks.specs.Block.{overwritten};
ghost use Rattle.blocks.specs.Calls.{OnlyReads};
ghost use Rattle.blocks.specs.Disk.{block_at, CountsFault};
ghost use Rattle.model.specs.Files.{bytes_in};
ghost use Rattle.model.specs.Format.{log_start, log_capacity, inode_start};
ghost use Rattle.model.specs.Layout.{super_of, form_of, inode_of, inode_block, reach};
ghost use Rattle.model.specs.Log.{place_among, recovered};
ghost use Rattle.model.specs.Operations.{part_of};
ghost use Rattle.model.specs.Places.{address_in, address_under};
ghost use Rattle.model.specs.Verdict.{geometry_fault, log_fault, or_else};
ghost use Rattle.offline.specs.Cause.{IsCause, KeepsFaults, source_among};
ghost use Rattle.offline.specs.Recovered.{HasWay, IsHeaderOf, IsRecoveredOf, LeadsUnder, LiesBehindLog, MayReadFile};

use blocks::{BLOCK_SIZE, Block, Disk, DiskFault};
use layout::entries::entry;
use layout::header::Header;
use layout::{LOG_START, depths, inode, inode_block, reach, superblock};
use model::types::{CheckFault, Dinode, Form, Super};

/// A disk's image as recovery would leave it, read without writing it: where a block is logged, the
/// logged one is read in its place (the xv6 book, the chapter "File system": "Code: logging").
#[derive(Drop)]
pub struct Recovered {
    /// The superblock.
    pub sup: Super,
    /// The form that its magic number tells.
    pub form: Form,
    /// The log's header, which says which blocks are logged.
    pub header: Header,
}

impl Recovered {
    /// Reads the superblock and then the log's header, and judges them. The block is room for both:
    /// what it holds afterwards is not said.
    ///
    /// # Errors
    ///
    /// The first of these that the image has:
    ///
    /// - `BadGeometry`: it has fewer than 2 blocks.
    /// - `BadMagic`: the superblock tells no form.
    /// - `BadGeometry`: its fields are not those of an image of this size.
    /// - `BadLog`: the header is not one that a log may have.
    ///
    /// `Disk` where a read failed.
    pub fn open<D: Disk>(disk: &mut D, block: &mut Block) -> Result<Recovered, CheckFault>
        ensures ok { IfOk result (λ image. IsRecoveredOf (D.image disk.old) image) }
        ensures fault { IfErr result (λ fault. IsCause
            (or_else (geometry_fault (D.image disk.old)) (log_fault (D.image disk.old)))
            (D.fault_count disk.old) (D.fault_count disk.new) fault) }
        ensures memory { IfErr result (λ fault. fault ≢ CheckFault.NoMemory) }
        ensures reads { OnlyReads D.Disk disk.old disk.new }
        ensures faults { KeepsFaults result (D.fault_count disk.old) (D.fault_count disk.new) }
    {
        if disk.size() < 2 {
            return Err(CheckFault::BadGeometry);
        }
        let (sup, form) = read_super(disk, block)?;
        let header = read_header(disk, block)?;
        Ok(Recovered { sup, form, header })
    }

    /// Reads block `b`: its logged one, or itself. The log's header is not asked for: recovery
    /// clears it.
    ///
    /// # Errors
    ///
    /// `DiskFault` where the disk fails. What `into` holds is then not said.
    pub fn block<D: Disk>(&self, disk: &mut D, b: u32, into: &mut Block) -> Result<(), DiskFault>
        requires recovered { IsRecoveredOf (D.image disk.old) self.now }
        requires other { b ≢ log_start }
        requires inside { b < length (D.image disk.old) }
        ensures ok { OnOk result (into.new ≡ block_at (recovered (D.image disk.old)) b) }
        ensures fault { IfErr result (λ fault. fault.0 < length (D.image disk.old)) }
        ensures reads { OnlyReads D.Disk disk.old disk.new }
        ensures faults { CountsFault result (D.fault_count disk.old) (D.fault_count disk.new) }
    {
        let source = source_of(self.header.homes.as_slice(), b);
        disk.read(source, into)
    }

    // Reads any block: of the log's header, what recovery leaves of it.
    pub(crate) fn any_block<D: Disk>(
        &self,
        disk: &mut D,
        b: u32,
        into: &mut Block,
    ) -> Result<(), DiskFault>
        requires recovered { IsRecoveredOf (D.image disk.old) self.now }
        requires inside { b < length (D.image disk.old) }
        ensures ok { OnOk result (into.new ≡ block_at (recovered (D.image disk.old)) b) }
        ensures fault { IfErr result (λ fault. fault.0 < length (D.image disk.old)) }
        ensures reads { OnlyReads D.Disk disk.old disk.new }
        ensures faults { CountsFault result (D.fault_count disk.old) (D.fault_count disk.new) }
    {
        if b != LOG_START {
            return self.block(disk, b, into);
        }
        disk.read(b, into)?;
        if self.header.n != 0 {
            into.put(0, &[0; BLOCK_SIZE]);
        }
        Ok(())
    }

    /// Reads the inode of a number, the unused number 0 included; `block` then holds its block.
    ///
    /// # Errors
    ///
    /// `DiskFault` where the disk fails. What `block` holds is then not said.
    #[tactic(auto, unfolding(model::specs::Layout::inode_of))]
    pub fn inode<D: Disk>(
        &self,
        disk: &mut D,
        i: u32,
        block: &mut Block,
    ) -> Result<Dinode, DiskFault>
        requires recovered { IsRecoveredOf (D.image disk.old) self.now }
        requires number { i < self.now.sup.ninodes }
        ensures ok { IfOk result (λ inode. inode ≡ inode_of (recovered (D.image disk.old)) i) }
        ensures addresses { IfOk result (λ inode. length inode.addrs ≡ 13) }
        ensures block { OnOk result
            (block.new ≡ block_at (recovered (D.image disk.old)) (inode_block i)) }
        ensures fault { IfErr result (λ fault. fault.0 < length (D.image disk.old)) }
        ensures reads { OnlyReads D.Disk disk.old disk.new }
        ensures faults { CountsFault result (D.fault_count disk.old) (D.fault_count disk.new) }
    {
        self.block(disk, inode_block(i), block)?;
        Ok(inode::read_at(block, i))
    }

    /// The number of the block that holds block `k` of an inode's file, counted from 0, and 0 where
    /// none does. The blocks of addresses on the way are read, one after the other: none, one or
    /// two. `entries` is room for them: what it holds afterwards is not said.
    ///
    /// # Errors
    ///
    /// `DiskFault` where the disk fails.
    pub fn address<D: Disk>(
        &self,
        disk: &mut D,
        inode: &Dinode,
        k: u32,
        entries: &mut Block,
    ) -> Result<u32, DiskFault>
        requires recovered { IsRecoveredOf (D.image disk.old) self.now }
        requires way { HasWay (recovered (D.image disk.old)) inode.now k }
        ensures ok { IfOk result
            (λ address. address ≡ address_in (recovered (D.image disk.old)) inode.now k) }
        ensures fault { IfErr result (λ fault. fault.0 < length (D.image disk.old)) }
        ensures reads { OnlyReads D.Disk disk.old disk.new }
        ensures faults { CountsFault result (D.fault_count disk.old) (D.fault_count disk.new) }
    {
        let depths = depths(self.form);
        let mut rest = k;
        for j in 0..depths.len() {
            let blocks = reach(depths[j]);
            if rest < blocks {
                return self.address_under(disk, inode.addrs[j], depths[j], rest, entries);
            }
            rest -= blocks;
        }
        Ok(0)
    }

    // The number of the block at place k behind an address of that depth, 0 where there is none.
    fn address_under<D: Disk>(
        &self,
        disk: &mut D,
        address: u32,
        depth: u32,
        k: u32,
        entries: &mut Block,
    ) -> Result<u32, DiskFault>
        requires recovered { IsRecoveredOf (D.image disk.old) self.now }
        requires shallow { depth ≤ 2 }
        requires reached { k < reach depth }
        requires leads { LeadsUnder (recovered (D.image disk.old)) depth k address }
        ensures ok { IfOk result
            (λ b. b ≡ address_under (recovered (D.image disk.old)) depth k address) }
        ensures fault { IfErr result (λ fault. fault.0 < length (D.image disk.old)) }
        ensures reads { OnlyReads D.Disk disk.old disk.new }
        ensures faults { CountsFault result (D.fault_count disk.old) (D.fault_count disk.new) }
    {
        if depth == 0 {
            return Ok(address);
        }
        if address == 0 {
            return Ok(0);
        }
        self.block(disk, address, entries)?;
        let blocks = reach(depth - 1);
        let next = entry(entries, k / blocks);
        self.address_under(disk, next, depth - 1, k % blocks, entries)
    }

    /// Reads block `k` of an inode's file, counted from 0.
    ///
    /// # Errors
    ///
    /// `DiskFault` where the disk fails. What `into` holds is then not said.
    pub fn data<D: Disk>(
        &self,
        disk: &mut D,
        inode: &Dinode,
        k: u32,
        into: &mut Block,
    ) -> Result<(), DiskFault>
        requires recovered { IsRecoveredOf (D.image disk.old) self.now }
        requires way { HasWay (recovered (D.image disk.old)) inode.now k }
        requires there { LiesBehindLog (recovered (D.image disk.old))
            (address_in (recovered (D.image disk.old)) inode.now k) }
        ensures ok { OnOk result (into.new ≡ block_at (recovered (D.image disk.old))
            (address_in (recovered (D.image disk.old)) inode.now k)) }
        ensures fault { IfErr result (λ fault. fault.0 < length (D.image disk.old)) }
        ensures reads { OnlyReads D.Disk disk.old disk.new }
        ensures faults { CountsFault result (D.fault_count disk.old) (D.fault_count disk.new) }
    {
        let address = self.address(disk, inode, k, into)?;
        self.block(disk, address, into)
    }

    /// Reads the bytes of an inode's file from place `at` on, as many as `into` has. Each block
    /// that has some of them is read, in order, and before it the blocks of addresses on the way to
    /// it. `block` is room for these: what it holds afterwards is not said.
    ///
    /// # Errors
    ///
    /// `DiskFault` where the disk fails. What `into` holds is then not said.
    pub fn read<D: Disk>(
        &self,
        disk: &mut D,
        inode: &Dinode,
        at: u32,
        into: &mut [u8],
        block: &mut Block,
    ) -> Result<(), DiskFault>
        requires recovered { IsRecoveredOf (D.image disk.old) self.now }
        requires file { MayReadFile (recovered (D.image disk.old)) inode.now }
        requires inside { at + length into.old ≤ inode.now.size }
        ensures ok { OnOk result (into.new
            ≡ part_of (bytes_in (recovered (D.image disk.old)) inode.now) at (length into.old)) }
        ensures fault { IfErr result (λ fault. fault.0 < length (D.image disk.old)) }
        ensures reads { OnlyReads D.Disk disk.old disk.new }
        ensures faults { CountsFault result (D.fault_count disk.old) (D.fault_count disk.new) }
    {
        let _size = inode.size;
        let mut done = 0;
        while done < into.len() {
            let place = at as usize + done;
            let from = place % BLOCK_SIZE;
            let n = (BLOCK_SIZE - from).min(into.len() - done);
            self.data(disk, inode, (place / BLOCK_SIZE) as u32, block)?;
            put(into, done, &block.as_slice()[from..from + n]);
            done += n;
        }
        Ok(())
    }
}

// Reads the superblock, and judges it: its fields, and the form that it tells.
fn read_super<D: Disk>(disk: &mut D, block: &mut Block) -> Result<(Super, Form), CheckFault>
    requires long { 2 ≤ length (D.image disk.old) }
    ensures ok { MatchResult result
        (λ read. (geometry_fault (D.image disk.old) ≡ None)
        × (read.0 ≡ super_of (D.image disk.old)) × (read.1 ≡ form_of (D.image disk.old)))
        (λ fault. IsCause (geometry_fault (D.image disk.old))
        (D.fault_count disk.old) (D.fault_count disk.new) fault) }
    ensures memory { IfErr result (λ fault. fault ≢ CheckFault.NoMemory) }
    ensures reads { OnlyReads D.Disk disk.old disk.new }
    ensures faults { KeepsFaults result (D.fault_count disk.old) (D.fault_count disk.new) }
{
    disk.read(1, block)?;
    let bytes = block.as_slice();
    if !superblock::is_known(bytes) {
        return Err(CheckFault::BadMagic);
    }
    let sup = superblock::read(bytes);
    if !superblock::is_lawful(&sup, disk.size()) {
        return Err(CheckFault::BadGeometry);
    }
    Ok((sup, superblock::form(bytes)))
}

// Reads the log's header, and judges it.
fn read_header<D: Disk>(disk: &mut D, block: &mut Block) -> Result<Header, CheckFault>
    requires long { inode_start ≤ length (D.image disk.old) }
    ensures ok { MatchResult result
        (λ header. IsHeaderOf (D.image disk.old) header)
        (λ fault. IsCause (log_fault (D.image disk.old))
        (D.fault_count disk.old) (D.fault_count disk.new) fault) }
    ensures memory { IfErr result (λ fault. fault ≢ CheckFault.NoMemory) }
    ensures reads { OnlyReads D.Disk disk.old disk.new }
    ensures faults { KeepsFaults result (D.fault_count disk.old) (D.fault_count disk.new) }
{
    disk.read(LOG_START, block)?;
    let header = Header::read(block.as_slice());
    if !header.is_lawful(disk.size()) {
        return Err(CheckFault::BadLog);
    }
    Ok(header)
}

#[tactic(auto, using(model::specs::Lemmas::Steps::position_from_zero))]
fn place_among(homes: &[u32], b: u32) -> Option<usize>
    ensures place { result ≡ place_among homes.now b }
    ensures below { IfSome result (λ place. place < length homes.now) }
{
    homes.iter().position(|home| *home == b)
}

// The block to read for block `b` of the recovered image: its logged one, or itself.
fn source_of(homes: &[u32], b: u32) -> u32
    requires { length homes.now ≤ log_capacity }
    ensures source { result ≡ source_among homes.now b }
    ensures low { result ≤ max (log_start + log_capacity) b }
{
    match place_among(homes, b) {
        Some(place) => LOG_START + 1 + place as u32,
        None => b,
    }
}

// Writes these bytes in the place of those from the index `at` on.
fn put(into: &mut [u8], at: usize, bytes: &[u8])
    requires { at + length bytes.now ≤ length into.old }
    ensures { into.new ≡ overwritten into.old at bytes.now }
{
    into[at..at + bytes.len()].copy_from_slice(bytes);
}
