// A file that has a name in a directory.
ghost use Rattle.names.specs.Ready.{MayGoOn};

use blocks::Disk;
use names::Tree;
use std::alloc::Global;

/// Puts these bytes into a file of a new directory, gives it another name, and finds it. Its number.
pub fn make_note<D: Disk>(alloc: Global, tree: &mut Tree<D>, bytes: &[u8]) -> anyhow::Result<u32>
    requires { MayGoOn D.Disk tree.old.kernel tree.old.calls_left }
    ensures { MayGoOn D.Disk tree.new.kernel tree.new.calls_left }
{
    let _directory = tree.make_directory(alloc, b"/docs")?;
    if let Err(cause) = tree.put(alloc, b"/docs/draft", bytes)? {
        return Err(cause.into());
    }
    tree.rename(alloc, b"/docs/draft", b"/docs/note")?;
    Ok(tree.lookup(alloc, b"/docs/note")?)
}
