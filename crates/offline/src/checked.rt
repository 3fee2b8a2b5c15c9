// Reading the files of an image that was checked.
ghost use Rattle.std.specs.Prelude.{◌≡◌, ◌<◌, None, length, IfErr, IfNone, IfOk, IfSome};
ghost use Rattle.blocks.specs.Calls.{OnlyReads};
ghost use Rattle.blocks.specs.Disk.{CountsFault};
ghost use Rattle.model.specs.Files.{bytes_in, file_in, files_of};
ghost use Rattle.model.specs.Log.{recovered};
ghost use Rattle.model.specs.Verdict.{verdict};
ghost use Rattle.offline.specs.Cause.{GoesThrough};
ghost use Rattle.offline.specs.Checked.{IsCheckedOf, IsInodeOf};
ghost use Rattle.offline.specs.Recovered.{IsRecoveredOf, MayReadFile};

use crate::laws::checked_files_may_be_read;
use crate::recovered::Recovered;
use blocks::{Block, Disk, DiskFault, NoMemory};
use layout::header::Header;
use layout::{LOG_START, superblock};
use model::types::{CheckFault, Dinode};
use std::alloc::Global;

impl Recovered {
    /// Reads the superblock and then the log's header of an image that was checked. The block is room
    /// for both: what it holds afterwards is not said.
    ///
    /// # Errors
    ///
    /// `DiskFault` where the disk fails.
    pub fn open_checked<D: Disk>(disk: &mut D, block: &mut Block) -> Result<Recovered, DiskFault>
        requires sound { verdict (D.image disk.old) ≡ None }
        ensures ok { IfOk result (IsCheckedOf (D.image disk.old)) }
        ensures fault { IfErr result (λ fault. fault.0 < length (D.image disk.old)) }
        ensures reads { OnlyReads D.Disk disk.old disk.new }
        ensures faults { CountsFault result (D.fault_count disk.old) (D.fault_count disk.new) }
    {
        disk.read(1, block)?;
        let sup = superblock::read(block.as_slice());
        let form = superblock::form(block.as_slice());
        disk.read(LOG_START, block)?;
        let header = Header::read(block.as_slice());
        Ok(Recovered { sup, form, header })
    }

    /// The inode of the file of a number; `None` where there is no such file. The block is room for its
    /// block: what it holds afterwards is not said.
    ///
    /// # Errors
    ///
    /// `DiskFault` where the disk fails.
    pub fn inode_at<D: Disk>(
        &self,
        disk: &mut D,
        number: u32,
        block: &mut Block,
    ) -> Result<Option<Dinode>, DiskFault>
        requires checked { IsCheckedOf (D.image disk.old) self.now }
        ensures found { IfOk result (λ found.
            IfSome found (IsInodeOf (recovered (D.image disk.old)) number)) }
        ensures none { IfOk result (λ found.
            IfNone found (file_in (files_of (recovered (D.image disk.old))) number ≡ None)) }
        ensures fault { IfErr result (λ fault. fault.0 < length (D.image disk.old)) }
        ensures reads { OnlyReads D.Disk disk.old disk.new }
        ensures faults { CountsFault result (D.fault_count disk.old) (D.fault_count disk.new) }
    {
        checked_files_may_be_read();
        if number == 0 || number >= self.sup.ninodes {
            return Ok(None);
        }
        let inode = self.inode(disk, number, block)?;
        if inode.kind == 0 {
            return Ok(None);
        }
        Ok(Some(inode))
    }

    /// All bytes of an inode's file. The block is room for blocks of addresses: what it holds afterwards
    /// is not said.
    ///
    /// # Errors
    ///
    /// `Disk` where a read failed, and `NoMemory` where memory for the bytes was refused.
    pub fn all_bytes<D: Disk>(
        &self,
        alloc: Global,
        disk: &mut D,
        inode: &Dinode,
        block: &mut Block,
    ) -> Result<Vec<u8>, CheckFault>
        requires recovered { IsRecoveredOf (D.image disk.old) self.now }
        requires file { MayReadFile (recovered (D.image disk.old)) inode.now }
        ensures bytes { IfOk result (λ bytes. bytes.items
            ≡ bytes_in (recovered (D.image disk.old)) inode.now) }
        ensures reads { OnlyReads D.Disk disk.old disk.new }
        ensures faults { GoesThrough result (D.fault_count disk.old) (D.fault_count disk.new) }
    {
        let mut bytes = zeroes(alloc, inode.size)?;
        self.read(disk, inode, 0, &mut bytes[..], block)?;
        Ok(bytes)
    }
}

// So many zeroes.
fn zeroes(alloc: Global, size: u32) -> Result<Vec<u8>, NoMemory>
    ensures { IfOk result (λ bytes. length bytes.items ≡ size) }
{
    let mut bytes = Vec::new(alloc);
    bytes.resize(size as usize, 0)?;
    Ok(bytes)
}
