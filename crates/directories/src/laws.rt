//! What a stop leaves of a directory, the contract of a function that does nothing.
ghost use Rattle.directories.specs.Laws.{CommittedNamesLead};

/// A name whose link's group is committed leads to its file after a stop. It rests on the recovery
/// theorem: `Kernel::known` says of each image that a stop may leave that it keeps (`Keeps`) the
/// committed groups of the journal. Where the changing operations of these have a link of the name,
/// made over the bytes that the directory had at its turn and answered as done, and the later ones
/// are elsewhere or write whole other entries, the directory in the recovered image leads from the
/// name to the number.
pub fn committed_names_lead()
    ensures { CommittedNamesLead }
{}
