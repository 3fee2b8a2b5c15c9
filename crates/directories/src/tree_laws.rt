//! What changes of names make of a tree of directories, the contracts of functions that do nothing.
ghost use Rattle.directories.specs.CountLaws.{AddingCounts, AddingDirectoryCounts, CountsAreOne, DirectoriesCount, DroppingCounts, DroppingDirectoryCounts, KeepingCounts, LinkingKeeps, MoreCountOthers, MovingCounts, MovingDirectoryCounts, OneCountsOnce, RootCounts, UnlinkingKeeps};
ghost use Rattle.directories.specs.FlawLaws.{NoFlawIsTree, TreeHasNoFlaw};
ghost use Rattle.directories.specs.PathLaws.{DirectoriesAreNamedOnce, FilesAreReached, NamesAreOne, NamesLead};
ghost use Rattle.directories.specs.TreeLaws.{AddingKeeps, CreateMakes, DroppingKeeps, FilesAreNew, KeepingKeeps, LinkAdds, LinkLeads, LinkMoves, MovingDirectoryKeeps, MovingKeeps, PlainKeeps, ReadsPart, RelinkLeads, RemoveDrops, RemoveUndoes, RepointLeads, RootIsTree, UnlinkLeads, UnlinkMoves, WriteFills};
ghost use Rattle.directories.specs.TreeMeaning.{DirectoriesAreTidy, EntriesLead, NoHalfIsTree, NumbersStandOnce, ParentsDecide, RootIsOutside, StepsLead};
ghost use Rattle.directories.specs.WholeChanges.{MakesDirectoryWhole, MakesFileWhole, MakesRootWhole, MovesDirectoryWhole, MovesFileWhole, RemovesFileWhole, RenamesFileWhole};

/// What one operation on a directory, with its reply, makes of where its names lead. A read brings
/// the bytes from an offset on, as many as one can. The write of an entry is whole, unless it is behind the last entry and no
/// block is free: then nothing is written. A file that was made and has no name yet is removed again
/// without a trace. What is done to files that are no directories changes no name.
pub fn operations_lead()
    ensures read { ReadsPart }
    ensures linked { LinkLeads }
    ensures unlinked { UnlinkLeads }
    ensures linked_again { RelinkLeads }
    ensures made { CreateMakes }
    ensures filled { WriteFills }
    ensures undone { RemoveUndoes }
    ensures plain { PlainKeeps }
{}

/// What two or three operations come to: a file was added under a name, was dropped with its name, or
/// has another name, and nothing else changed. An entry that is given another number is written whole.
pub fn operations_change()
    ensures repointed { RepointLeads }
    ensures added { LinkAdds }
    ensures dropped { RemoveDrops }
    ensures moved { LinkMoves }
    ensures moved_behind { UnlinkMoves }
    ensures fresh { FilesAreNew }
{}

/// In a tree each path leads to a file, each file has a path, and each directory one. The root alone is
/// one. It stays one where a file or an empty directory is added under a name, where a file or an empty
/// directory is dropped with its only name, where a file has another name in any directory, or a
/// directory in its own or, with its name for its parent, in one that is not below it, and where files
/// that are no directories are written. And no file has several names then that had one at most, so each
/// that had one path from the root has one still.
pub fn trees_stay()
    ensures begun { RootIsTree }
    ensures added { AddingKeeps }
    ensures dropped { DroppingKeeps }
    ensures moved { MovingKeeps }
    ensures moved_directory { MovingDirectoryKeeps }
    ensures kept { KeepingKeeps }
{}

/// The operations of each whole change, with their replies, leave a tree, in which just that changed, and
/// no file has several names that had one at most.
/// An unlink, a removal and a link into a freed entry are not refused.
pub fn changes_leave_trees()
    ensures root { MakesRootWhole }
    ensures file { MakesFileWhole }
    ensures directory { MakesDirectoryWhole }
    ensures removed { RemovesFileWhole }
    ensures renamed { RenamesFileWhole }
    ensures moved { MovesFileWhole }
    ensures moved_directory { MovesDirectoryWhole }
{}

/// Each file's count of links is how many names but `.` lead to it, as xv6's kernel counts (the xv6 book,
/// the chapter "File system": "Code: Directory layer"), so a directory's is 1 and one for each directory
/// in it. The counts stay right over each change of a tree which sets those that it says.
pub fn counts_stay()
    ensures root { RootCounts }
    ensures file { AddingCounts }
    ensures directory { AddingDirectoryCounts }
    ensures removed { DroppingCounts }
    ensures directory_removed { DroppingDirectoryCounts }
    ensures moved { MovingCounts }
    ensures moved_directory { MovingDirectoryCounts }
    ensures kept { KeepingCounts }
{}

/// A file may have several names: one more, or one less, leaves a tree whose counts are right where its
/// count says so. Whether a name is a file's last one is told by the count, with no other directory
/// looked into, and no directory's count is 0.
pub fn counts_tell_names()
    ensures linked { LinkingKeeps }
    ensures unlinked { UnlinkingKeeps }
    ensures one { OneCountsOnce }
    ensures more { MoreCountOthers }
    ensures directories { DirectoriesCount }
    ensures unique { CountsAreOne }
{}

/// In a tree each directory has its own two entries, each other used entry's name leads to a file, and
/// no directory's number stands in two of these. Whether a directory is below another is told by the
/// parents up to the root. And one of the operations that make, remove or rename a file is never enough
/// for a tree: they belong into one transaction.
pub fn trees_mean()
    ensures tidy { DirectoriesAreTidy }
    ensures steps { StepsLead }
    ensures entries { EntriesLead }
    ensures once { NumbersStandOnce }
    ensures root { RootIsOutside }
    ensures parents { ParentsDecide }
    ensures halves { NoHalfIsTree }
{}

/// In a tree the names of a path lead to a file, wherever they lead, those for a directory and for its
/// parent among them. And each file is reached from the root, where it has one name by one list of names
/// that lead down, as each directory has.
pub fn paths_name_files()
    ensures lead { NamesLead }
    ensures reached { FilesAreReached }
    ensures one { NamesAreOne }
    ensures directories { DirectoriesAreNamedOnce }
{}

/// Files have no flaw exactly where they are a tree whose counts of links are right: no such fault is left
/// out, and none is told of a tree.
pub fn flaws_tell_trees()
    ensures tree { NoFlawIsTree }
    ensures flawless { TreeHasNoFlaw }
{}
