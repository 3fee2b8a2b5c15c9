//! What a copy comes to, the contract of a function that does nothing.
ghost use Rattle.tree_changes.specs.CopyLaws.{CopiesHold};

/// Does nothing: it says that the path of a copy leads to a file of the copied file's type once its bytes
/// are put there, which has these bytes alone, and that each name leads where it led.
pub fn copies_hold()
    ensures { CopiesHold }
{}
