// Files of a tree that get a name in another directory.
ghost use Rattle.std.specs.Prelude.{◌≡◌, ◌≢◌, ◌↔◌, IfErr, IfOk, IsTrue, OnOk};
ghost use Rattle.directories.specs.Counts.{AreCounted, HasLinks};
ghost use Rattle.names.specs.Inside.{files_seen, AnswersFull, IsUnderWay, Proceeds, SeesSame};
ghost use Rattle.names.specs.Ready.{Happens, TreeStays};
ghost use Rattle.names.specs.Renaming.{IsPlanned, IsUnrenamed, Renames, Rises};
ghost use Rattle.directories.specs.Trees.{root, IsDirectory, IsOutside, IsTree};

use crate::making::unlinked;
use crate::refusal::{Asked, TreeFault};
use crate::tree::Tree;
use blocks::Disk;
use directories::{DIRECTORY, EntryWrite, Name, Refusal, link, lookup, repoint, unlink};
use std::alloc::Global;

// The writes that move a file to another directory.
#[derive(Drop)]
pub(crate) struct Plan {
    pub(crate) file: u32,
    // Its new name is linked.
    pub(crate) link: EntryWrite,
    // Its old one is unlinked.
    pub(crate) unlink: EntryWrite,
    // A directory gets its new parent.
    pub(crate) rise: Option<Rise>,
}

// What gives a directory another parent, and the counts that the old and the new one have then.
#[derive(Drop)]
pub(crate) struct Rise {
    // Its name for its parent leads to the new one.
    pub(crate) up: EntryWrite,
    pub(crate) left: u16,
    pub(crate) more: u16,
}

impl<D: Disk> Tree<D> {
    // Gives a file a name in another directory. The new one is linked first, which may find no room.
    pub(crate) fn moved(
        &mut self,
        alloc: Global,
        from: u32,
        old: &Name,
        to: u32,
        name: &Name,
    ) -> Asked<()>
        requires way { IsUnderWay D.Disk self.old.kernel self.old.calls_left }
        requires tree { IsTree (files_seen D.image self.old.kernel) }
        requires counted { AreCounted (files_seen D.image self.old.kernel) }
        requires apart { from ≢ to }
        ensures goes { Proceeds D.Disk result self.old.kernel self.new.kernel self.new.calls_left }
        ensures tree { OnOk result (TreeStays D.image self.old.kernel self.new.kernel) }
        ensures moved { IfOk result (Happens (Renames from old.now to name.now)
            (λ files. IsUnrenamed files from old.now to name.now)
            (files_seen D.image self.old.kernel) (files_seen D.image self.new.kernel)) }
        ensures no_block { IfOk result (AnswersFull D.Disk self.old.kernel self.new.kernel) }
    {
        let plan = match self.planned(from, old, to, name)? {
            Ok(plan) => plan,
            Err(refusal) => return Ok(Err(refusal)),
        };
        if !self.entered(alloc, to, plan.link)? {
            return Ok(Err(Refusal::NoBlock));
        }
        let _freed = self.entered(alloc, from, plan.unlink)?;
        let Some(rise) = plan.rise else {
            return Ok(Ok(()));
        };
        self.relinked(from, rise.left)?;
        self.relinked(to, rise.more)?;
        let _turned = self.entered(alloc, plan.file, rise.up)?;
        Ok(Ok(()))
    }

    // The writes that give a file a name in another directory. Why not, where it is refused.
    fn planned(&mut self, from: u32, old: &Name, to: u32, name: &Name) -> Asked<Plan>
        requires way { IsUnderWay D.Disk self.old.kernel self.old.calls_left }
        requires tree { IsTree (files_seen D.image self.old.kernel) }
        requires counted { AreCounted (files_seen D.image self.old.kernel) }
        requires apart { from ≢ to }
        ensures goes { Proceeds D.Disk result self.old.kernel self.new.kernel self.new.calls_left }
        ensures same { OnOk result (SeesSame D.image self.old.kernel self.new.kernel) }
        ensures planned { IfOk result
            (IsPlanned (files_seen D.image self.old.kernel) from old.now to name.now) }
        ensures no_block { IfOk result (AnswersFull D.Disk self.old.kernel self.new.kernel) }
    {
        let Some(bytes) = self.directory(from)? else {
            return Ok(Err(Refusal::NotADirectory));
        };
        if !old.is_down() {
            return Ok(Err(Refusal::NotDown));
        }
        let Some(number) = lookup(bytes.as_slice(), old) else {
            return Ok(Err(Refusal::NotFound));
        };
        let Some(freeing) = unlink(bytes.as_slice(), old) else {
            // It leads to a number.
            unreachable!()
        };
        let Some(bytes) = self.directory(to)? else {
            return Ok(Err(Refusal::NotADirectory));
        };
        let linking = match link(bytes.as_slice(), name, number) {
            Ok(write) => write,
            Err(fault) => return Ok(Err(unlinked(fault))),
        };
        let Some(own) = lookup(bytes.as_slice(), &Name::own()) else {
            // A directory has itself.
            unreachable!()
        };
        let file = u32::from(number);
        match self.rise(file, from, own)? {
            Ok(rise) => Ok(Ok(Plan {
                file,
                link: linking,
                unlink: freeing,
                rise,
            })),
            Err(refusal) => Ok(Err(refusal)),
        }
    }

    // What gives a directory another parent; nothing for a file that is no directory.
    fn rise(&mut self, number: u32, from: u32, to: u16) -> Asked<Option<Rise>>
        requires way { IsUnderWay D.Disk self.old.kernel self.old.calls_left }
        requires tree { IsTree (files_seen D.image self.old.kernel) }
        requires there { IsDirectory (files_seen D.image self.old.kernel) to }
        requires below { number ≢ root }
        requires parent { HasLinks (files_seen D.image self.old.kernel) from }
        ensures goes { Proceeds D.Disk result self.old.kernel self.new.kernel self.new.calls_left }
        ensures same { OnOk result (SeesSame D.image self.old.kernel self.new.kernel) }
        ensures rises { IfOk result (Rises (files_seen D.image self.old.kernel) number from to) }
    {
        if !self.is_directory(number)? {
            return Ok(Ok(None));
        }
        if !self.is_outside(number, u32::from(to))? {
            return Ok(Err(Refusal::IsInside));
        }
        let links = self.links_of(from)?;
        let more = match self.one_more(u32::from(to))? {
            Ok(more) => more,
            Err(refusal) => return Ok(Err(refusal)),
        };
        let bytes = self.tidy_directory(number)?;
        let Some(up) = repoint(bytes.as_slice(), &Name::parent(), to) else {
            // A directory has a parent.
            unreachable!()
        };
        Ok(Ok(Some(Rise {
            up,
            left: links - 1,
            more,
        })))
    }

    // Whether a directory is neither another one nor below it. From parent to parent it comes to that
    // one or to the root.
    fn is_outside(&mut self, number: u32, from: u32) -> Result<bool, TreeFault>
        requires way { IsUnderWay D.Disk self.old.kernel self.old.calls_left }
        requires tree { IsTree (files_seen D.image self.old.kernel) }
        requires there { IsDirectory (files_seen D.image self.old.kernel) from }
        requires below { number ≢ root }
        ensures goes { Proceeds D.Disk result self.old.kernel self.new.kernel self.new.calls_left }
        ensures same { OnOk result (SeesSame D.image self.old.kernel self.new.kernel) }
        ensures told { IfOk result (λ is.
            IsTrue is ↔ IsOutside (files_seen D.image self.old.kernel) number from) }
    {
        let mut at = from;
        // Each step makes calls, and no more than these may be made.
        for _step in 0..self.calls_left {
            if at == number {
                return Ok(false);
            }
            if at == DIRECTORY {
                return Ok(true);
            }
            let Ok(parent) = self.step(at, &Name::parent())? else {
                // A directory has a parent.
                unreachable!()
            };
            at = parent;
        }
        self.calls_left = 0;
        Err(TreeFault::NoCall)
    }
}
