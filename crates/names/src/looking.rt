// Looks at the directories of a tree, in a transaction.
ghost use Rattle.std.specs.Prelude.{◌≡◌, ◌<◌, ◌++◌, length, IfOk, OnOk};
ghost use Rattle.calls.specs.Calls.{call_count};
ghost use Rattle.model.specs.Operations.{part_of, transfer_limit};
ghost use Rattle.names.specs.Inside.{files_seen, IsUnderWay, Proceeds, SeesSame};
ghost use Rattle.directories.specs.Trees.{directory_in, root, IsDirectory, IsTree};
ghost use Rattle.directories.specs.Walks.{stepped, walked, IsDirectoryFound, found_or};
ghost use Rattle.directories.specs.Entries.{lookup};

use crate::refusal::{Asked, TreeFault};
use crate::tree::Tree;
use blocks::Disk;
use calls::transactions::TransactionFault;
use directories::{DIRECTORY, DIRECTORY_KIND, Name, Refusal, lookup};
use model::content::Content;
use model::types::{Op, Reply, TRANSFER_LIMIT};

impl<D: Disk> Tree<D> {
    // The bytes of a directory, or none where the file is no directory.
    pub(crate) fn directory(&mut self, number: u32) -> Result<Option<Content>, TreeFault>
        requires way { IsUnderWay D.Disk self.old.kernel self.old.calls_left }
        requires tree { IsTree (files_seen D.image self.old.kernel) }
        ensures goes { Proceeds D.Disk result self.old.kernel self.new.kernel self.new.calls_left }
        ensures same { OnOk result (SeesSame D.image self.old.kernel self.new.kernel) }
        ensures found { IfOk result (IsDirectoryFound
            (files_seen D.image self.old.kernel) number) }
        ensures answered { OnOk result (call_count self.old.kernel < call_count self.new.kernel) }
    {
        let Reply::StatOf(kind, _links, size) = self.called(Op::Stat(number))? else {
            return Ok(None);
        };
        if kind != DIRECTORY_KIND {
            return Ok(None);
        }
        let bytes = self.whole_directory(number, size)?;
        Ok(Some(bytes))
    }

    // The bytes of a file that is a directory, of files that may be no tree.
    pub(crate) fn tidy_directory(&mut self, number: u32) -> Result<Content, TreeFault>
        requires way { IsUnderWay D.Disk self.old.kernel self.old.calls_left }
        requires there { IsDirectory (files_seen D.image self.old.kernel) number }
        ensures goes { Proceeds D.Disk result self.old.kernel self.new.kernel self.new.calls_left }
        ensures same { OnOk result (SeesSame D.image self.old.kernel self.new.kernel) }
        ensures bytes { IfOk result (λ bytes.
            bytes ≡ directory_in (files_seen D.image self.old.kernel) number) }
    {
        let Reply::StatOf(_kind, _links, size) = self.called(Op::Stat(number))? else {
            // A file that is there can be looked at.
            unreachable!()
        };
        let bytes = self.whole_directory(number, size)?;
        Ok(bytes)
    }

    // The bytes of a directory of that size, in pieces of as many as one read brings.
    fn whole_directory(&mut self, number: u32, size: u32) -> Result<Content, TreeFault>
        requires way { IsUnderWay D.Disk self.old.kernel self.old.calls_left }
        requires there { IsDirectory (files_seen D.image self.old.kernel) number }
        requires size { size ≡ length (directory_in (files_seen D.image self.old.kernel) number) }
        ensures goes { Proceeds D.Disk result self.old.kernel self.new.kernel self.new.calls_left }
        ensures same { OnOk result (SeesSame D.image self.old.kernel self.new.kernel) }
        ensures bytes { IfOk result (λ bytes.
            bytes ≡ directory_in (files_seen D.image self.old.kernel) number) }
    {
        let mut bytes = Vec::new(self.alloc);
        for piece in 0..size.div_ceil(TRANSFER_LIMIT) {
            self.read_behind(number, piece * TRANSFER_LIMIT, &mut bytes)?;
        }
        Ok(Content::new(bytes))
    }

    // Puts a directory's bytes from an offset on behind others, as many as one read brings.
    fn read_behind(
        &mut self,
        number: u32,
        offset: u32,
        bytes: &mut Vec<u8>,
    ) -> Result<(), TreeFault>
        requires way { IsUnderWay D.Disk self.old.kernel self.old.calls_left }
        requires there { IsDirectory (files_seen D.image self.old.kernel) number }
        ensures goes { Proceeds D.Disk result self.old.kernel self.new.kernel self.new.calls_left }
        ensures same { OnOk result (SeesSame D.image self.old.kernel self.new.kernel) }
        ensures more { OnOk result (bytes.new.items ≡ bytes.old.items ++ part_of
            (directory_in (files_seen D.image self.old.kernel) number) offset transfer_limit) }
    {
        let Reply::Bytes(piece) = self.called(Op::Read(number, offset, TRANSFER_LIMIT))? else {
            // A file that is there can be read.
            unreachable!()
        };
        match bytes.extend_from_slice(piece.as_slice()) {
            Ok(()) => Ok(()),
            Err(_refused) => {
                self.calls_left = 0;
                Err(TreeFault::Call(TransactionFault::NoMemory))
            }
        }
    }

    // Where a name leads from a file.
    pub(crate) fn step(&mut self, from: u32, name: &Name) -> Asked<u32>
        requires way { IsUnderWay D.Disk self.old.kernel self.old.calls_left }
        requires tree { IsTree (files_seen D.image self.old.kernel) }
        ensures goes { Proceeds D.Disk result self.old.kernel self.new.kernel self.new.calls_left }
        ensures same { OnOk result (SeesSame D.image self.old.kernel self.new.kernel) }
        ensures led { IfOk result (λ led.
            led ≡ stepped (files_seen D.image self.old.kernel) from name.now) }
        ensures answered { OnOk result (call_count self.old.kernel < call_count self.new.kernel) }
    {
        let Some(bytes) = self.directory(from)? else {
            return Ok(Err(Refusal::NotADirectory));
        };
        Ok(led_by(bytes.as_slice(), name))
    }

    // Where names lead from the root, one after the other.
    pub(crate) fn walk(&mut self, names: &[Name]) -> Asked<u32>
        requires way { IsUnderWay D.Disk self.old.kernel self.old.calls_left }
        requires tree { IsTree (files_seen D.image self.old.kernel) }
        ensures goes { Proceeds D.Disk result self.old.kernel self.new.kernel self.new.calls_left }
        ensures same { OnOk result (SeesSame D.image self.old.kernel self.new.kernel) }
        ensures led { IfOk result (λ led.
            led ≡ walked (files_seen D.image self.old.kernel) root names.now) }
    {
        let mut number = DIRECTORY;
        for name in names {
            match self.step(number, name)? {
                Ok(next) => number = next,
                Err(refusal) => return Ok(Err(refusal)),
            }
        }
        Ok(Ok(number))
    }
}

// Where a name leads in a directory of these bytes.
fn led_by(bytes: &[u8], name: &Name) -> Result<u32, Refusal>
    ensures { result ≡ found_or (lookup bytes.now name.now) }
{
    match lookup(bytes, name) {
        Some(number) => Ok(u32::from(number)),
        None => Err(Refusal::NotFound),
    }
}
