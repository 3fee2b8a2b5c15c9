// What the calls of a tree do at a path, each in a transaction of its own.
ghost use Rattle.std.specs.Prelude.{◌≡◌, ◌<◌, ℕ, List, IfErr, IfOk, OnOk};
ghost use Rattle.calls.specs.Calls.{image_on};
ghost use Rattle.calls.specs.Stopped.{StaysOver};
ghost use Rattle.model.specs.Files.{Files, files_of};
ghost use Rattle.model.specs.declared.types.image.Form.{Form};
ghost use Rattle.directories.specs.Counts.{AreCounted};
ghost use Rattle.directories.specs.declared.refusal.Refusal.{Refusal};
ghost use Rattle.names.specs.declared.refusal.TreeFault.{TreeFault as SomeTreeFault};
ghost use Rattle.names.specs.Inside.{files_seen, form_seen, AnswersFull, FillsUp, IsUnderWay, ProceedsOr, TellsFull};
ghost use Rattle.directories.specs.Paths.{names_of};
ghost use Rattle.names.specs.Ready.{answer_of, Happens, HasNoCall, HasNoCallAt, IsReady, IsReadyBehind, IsUnansweredOr, IsUndoneOr, LeavesTree, MayGoOn, TellsBlocks, TreeStays};
ghost use Rattle.directories.specs.Trees.{IsTree};
ghost use Rattle.directories.specs.Walks.{AtLast, IsUndoneIn};

use crate::refusal::{Asked, TreeFault};
use crate::tree::Tree;
use blocks::Disk;
use directories::{Name, Refusal, names_of};
use std::alloc::Global;

// A change of the files of a tree where names lead from the root, or a look at them.
pub(crate) trait Change {
    // What it answers.
    type Made: Drop;

    // In a kernel of this form it makes this of the files, for those names.
    ghost makes: { Self → Form → List (List ℕ) → Self.Made → Files → Files → Type 0 };

    // Why it is refused.
    ghost refuses: { Self → List (List ℕ) → Files → Refusal → Type 0 };

    // What else may hinder it, over those files.
    ghost hinders: { Self → Files → SomeTreeFault → Type 0 };

    // Where it answers so, no block is free.
    ghost fills: { Self → Self.Made → Type 0 };

    // Where this is so, it tells NoBlock only for want of a block.
    ghost tells_full: { Self → Type 0 };

    // Makes it in the transaction under way.
    fn apply<D: Disk>(&self, tree: &mut Tree<D>, alloc: Global, names: &[Name]) -> Asked<Self::Made>
        requires way { IsUnderWay D.Disk tree.old.kernel tree.old.calls_left }
        requires tree { IsTree (files_seen D.image tree.old.kernel) }
        requires counted { AreCounted (files_seen D.image tree.old.kernel) }
        ensures goes { ProceedsOr (hinders self.now (files_seen D.image tree.old.kernel)) D.Disk
            result tree.old.kernel tree.new.kernel tree.new.calls_left }
        ensures tree { OnOk result (TreeStays D.image tree.old.kernel tree.new.kernel) }
        ensures made { IfOk result (Happens
            (makes self.now (form_seen D.image tree.old.kernel) names.now)
            (refuses self.now names.now)
            (files_seen D.image tree.old.kernel) (files_seen D.image tree.new.kernel)) }
        ensures full { IfOk result (FillsUp D.image (fills self.now) tree.new.kernel) }
        ensures no_block { tells_full self.now → IfOk result (AnswersFull D.Disk
            tree.old.kernel tree.new.kernel) };
}

// A change at a name of a directory.
pub(crate) trait ChangeIn {
    // What it answers.
    type Made: Drop;

    // It makes this of the files, in the directory of that number, for that name.
    ghost makes: { Self → ℕ → List ℕ → Self.Made → Files → Files → Type 0 };

    // Why it is refused.
    ghost refuses: { Self → Files → ℕ → List ℕ → Refusal → Type 0 };

    // What else may hinder it.
    ghost hinders: { Self → SomeTreeFault → Type 0 };

    // Where this is so, it tells NoBlock only for want of a block.
    ghost tells_full: { Self → Type 0 };

    // Makes it in the transaction under way.
    fn apply_in<D: Disk>(
        &self,
        tree: &mut Tree<D>,
        alloc: Global,
        from: u32,
        name: &Name,
    ) -> Asked<Self::Made>
        requires way { IsUnderWay D.Disk tree.old.kernel tree.old.calls_left }
        requires tree { IsTree (files_seen D.image tree.old.kernel) }
        requires counted { AreCounted (files_seen D.image tree.old.kernel) }
        ensures goes { ProceedsOr (hinders self.now) D.Disk result
            tree.old.kernel tree.new.kernel tree.new.calls_left }
        ensures tree { OnOk result (TreeStays D.image tree.old.kernel tree.new.kernel) }
        ensures made { IfOk result (Happens (makes self.now from name.now)
            (λ files. refuses self.now files from name.now)
            (files_seen D.image tree.old.kernel) (files_seen D.image tree.new.kernel)) }
        ensures no_block { tells_full self.now → IfOk result (AnswersFull D.Disk
            tree.old.kernel tree.new.kernel) };
}

// A change at the last of the names, in the directory that the others lead to.
#[derive(Drop)]
pub(crate) struct Last<C> {
    pub(crate) change: C,
}

impl<C: ChangeIn> Change for Last<C> {
    type Made = C::Made;

    ghost makes = { λ last form names. AtLast (C.makes last.change) names };

    ghost refuses = { λ last names. IsUndoneIn (C.refuses last.change) names };

    ghost hinders = { λ last files. C.hinders last.change };

    ghost fills = { λ last made. ⊥ };

    ghost tells_full = { λ last. C.tells_full last.change };

    fn apply<D: Disk>(&self, tree: &mut Tree<D>, alloc: Global, names: &[Name]) -> Asked<C::Made> {
        if names.is_empty() {
            return Ok(Err(Refusal::IsRoot));
        }
        let last = names.len() - 1;
        match tree.walk(&names[..last])? {
            Ok(from) => self.change.apply_in(tree, alloc, from, &names[last]),
            Err(refusal) => Ok(Err(refusal)),
        }
    }
}

impl<D: Disk> Tree<D> {
    // Makes a change at a path.
    pub(crate) fn changed<C: Change>(
        &mut self,
        alloc: Global,
        path: &[u8],
        change: &C,
    ) -> Result<C::Made, TreeFault>
        requires ready { MayGoOn D.Disk self.old.kernel self.old.calls_left }
        ensures ready { MayGoOn D.Disk self.new.kernel self.new.calls_left }
        ensures done { IsReadyBehind D.Disk self.new.kernel self.new.calls_left result }
        ensures makes { IfOk result (λ made.
            C.makes change.now (form_seen D.image self.old.kernel) (names_of path.now) made
            (files_of (image_on D.image self.old.kernel))
            (files_of (image_on D.image self.new.kernel))) }
        ensures refused { IsReady D.Disk self.old.kernel self.old.calls_left → IfErr result
            (IsUndoneOr (C.hinders change.now
            (files_of (image_on D.image self.old.kernel))) D.Disk path.now
            (C.refuses change.now (names_of path.now)) self.old.kernel self.new.kernel) }
        ensures none { self.old.calls_left ≡ 0 → HasNoCallAt path.now self.old self.new result }
        ensures leaves { 0 < self.old.calls_left → LeavesTree D.Disk
            (C.makes change.now (form_seen D.image self.old.kernel) (names_of path.now))
            self.old.kernel self.new.kernel }
        ensures stays { StaysOver D.Disk self.old.kernel self.new.kernel }
        ensures no_block { C.tells_full change.now → IfErr result (TellsFull D.Disk
            self.old.kernel self.new.kernel) }
    {
        match names_of(alloc, path) {
            Ok(names) => self.changed_at(alloc, names.as_slice(), change),
            Err(fault) => {
                self.stands();
                Err(TreeFault::Path(fault))
            }
        }
    }

    // The same where names lead.
    pub(crate) fn changed_at<C: Change>(
        &mut self,
        alloc: Global,
        names: &[Name],
        change: &C,
    ) -> Result<C::Made, TreeFault>
        requires ready { MayGoOn D.Disk self.old.kernel self.old.calls_left }
        ensures ready { MayGoOn D.Disk self.new.kernel self.new.calls_left }
        ensures done { IsReadyBehind D.Disk self.new.kernel self.new.calls_left result }
        ensures makes { IfOk result (λ made.
            C.makes change.now (form_seen D.image self.old.kernel) names.now made
            (files_of (image_on D.image self.old.kernel))
            (files_of (image_on D.image self.new.kernel))) }
        ensures refused { IsReady D.Disk self.old.kernel self.old.calls_left → IfErr result
            (IsUnansweredOr (C.hinders change.now
            (files_of (image_on D.image self.old.kernel))) D.Disk
            (C.refuses change.now names.now) self.old.kernel self.new.kernel) }
        ensures none { self.old.calls_left ≡ 0 → HasNoCall self.old self.new result }
        ensures leaves { 0 < self.old.calls_left → LeavesTree D.Disk
            (C.makes change.now (form_seen D.image self.old.kernel) names.now)
            self.old.kernel self.new.kernel }
        ensures stays { StaysOver D.Disk self.old.kernel self.new.kernel }
        ensures blocks { TellsBlocks D.Disk (C.fills change.now) (C.tells_full change.now)
            self.old.kernel self.new.kernel result }
    {
        if self.calls_left == 0 {
            return Err(TreeFault::NoCall);
        }
        self.begun(alloc)?;
        let made = change.apply(self, alloc, names)?;
        self.committed()?;
        answer_of(made)
    }
}

// What a call of a tree answers, of what its change does.
fn answer_of<T>(made: Result<T, Refusal>) -> Result<T, TreeFault>
    ensures { result ≡ answer_of made }
{
    match made {
        Ok(made) => Ok(made),
        Err(refusal) => Err(TreeFault::Refused(refusal)),
    }
}
