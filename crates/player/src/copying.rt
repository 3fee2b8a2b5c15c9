// Copies of a script's operations, one set for each run.
ghost use Rattle.std.specs.Prelude.{◌≡◌, IfOk};

use blocks::NoMemory;
use model::content::Content;
use model::types::Op;
use scripts::Task;
use std::alloc::Global;

/// The same operations.
///
/// # Errors
///
/// `NoMemory` where the allocator refuses the memory that they take.
pub fn copies_of(alloc: Global, tasks: &[Task]) -> Result<Vec<Task>, NoMemory>
    ensures { IfOk result (λ copies. copies.items ≡ tasks.now) }
{
    let mut copies = Vec::new(alloc);
    for task in tasks {
        copies.push(Task {
            line: task.line,
            pid: task.pid,
            op: copy_of(alloc, &task.op)?,
        })?;
    }
    Ok(copies)
}

fn copy_of(alloc: Global, op: &Op) -> Result<Op, NoMemory>
    ensures { IfOk result (λ copy. copy ≡ op.now) }
{
    match op {
        Op::Create(kind) => Ok(Op::Create(*kind)),
        Op::Write(inode, offset, bytes) => {
            let bytes = Content::copy_of(alloc, bytes.as_slice())?;
            Ok(Op::Write(*inode, *offset, bytes))
        }
        Op::Read(inode, offset, count) => Ok(Op::Read(*inode, *offset, *count)),
        Op::Trunc(inode) => Ok(Op::Trunc(*inode)),
        Op::Remove(inode) => Ok(Op::Remove(*inode)),
        Op::Stat(inode) => Ok(Op::Stat(*inode)),
        Op::SetAttribute(inode, attribute) => Ok(Op::SetAttribute(*inode, *attribute)),
    }
}
