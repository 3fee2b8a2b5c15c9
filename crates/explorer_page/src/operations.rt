// The operations of a run, an object each.
ghost use Rattle.std.specs.Prelude.{OnOk};
ghost use Rattle.std.specs.Io.KnownBytes.{Appends};
ghost use Rattle.std.specs.List.{flat_map};
ghost use Rattle.explorer_page.specs.Operations.{attribute_fields, file_fields, op_fields, read_fields, set_fields, task_object, word_fields, write_fields};

use json_lines::{print_bytes, print_first_number, print_number, print_word};
use messages::{Unwritten, print};
use model::types::{Attribute, Op};
use scripts::Task;
use std::io::Write;

// Writes the objects of operations.
pub fn print_tasks<O: Write>(out: &mut O, tasks: &[Task]) -> Result<(), Unwritten>
    ensures ok { OnOk result (Appends (O.contents out.old) (O.contents out.new)
        (flat_map task_object tasks.now)) }
{
    for task in tasks {
        print_task(out, task)?;
    }
    Ok(())
}

#[tactic(auto, unfolding(crate::specs::Operations::task_object))]
fn print_task<O: Write>(out: &mut O, task: &Task) -> Result<(), Unwritten>
    ensures ok { OnOk result (Appends (O.contents out.old) (O.contents out.new)
        (task_object task.now)) }
{
    print_first_number(out, "process", task.pid as u64)?;
    print_op(out, &task.op)?;
    print(out, "}\n")
}

fn print_op<O: Write>(out: &mut O, op: &Op) -> Result<(), Unwritten>
    ensures ok { OnOk result (Appends (O.contents out.old) (O.contents out.new)
        (op_fields op.now)) }
{
    match op {
        Op::Create(kind) => print_with(out, "create", "type", *kind as u64),
        Op::Write(inode, offset, content) => {
            print_write(out, *inode, *offset, content.as_slice())
        }
        Op::Read(inode, offset, count) => print_read(out, *inode, *offset, *count),
        Op::Trunc(inode) => print_file(out, "trunc", *inode),
        Op::Remove(inode) => print_file(out, "remove", *inode),
        Op::Stat(inode) => print_file(out, "stat", *inode),
        Op::SetAttribute(inode, attribute) => print_attribute(out, *inode, *attribute),
    }
}

// Writes what an operation is, and a number.
#[tactic(auto, unfolding(crate::specs::Operations::word_fields))]
fn print_with<O: Write>(out: &mut O, word: &str, name: &str, number: u64) -> Result<(), Unwritten>
    ensures ok { OnOk result (Appends (O.contents out.old) (O.contents out.new)
        (word_fields word.now name.now number)) }
{
    print_word(out, "operation", word)?;
    print_number(out, name, number)
}

// Writes what an operation is, and its file.
fn print_file<O: Write>(out: &mut O, word: &str, inode: u32) -> Result<(), Unwritten>
    ensures ok { OnOk result (Appends (O.contents out.old) (O.contents out.new)
        (file_fields word.now inode)) }
{
    print_with(out, word, "inode", inode as u64)
}

#[tactic(auto, unfolding(crate::specs::Operations::write_fields))]
fn print_write<O: Write>(
    out: &mut O,
    inode: u32,
    offset: u32,
    bytes: &[u8],
) -> Result<(), Unwritten>
    ensures ok { OnOk result (Appends (O.contents out.old) (O.contents out.new)
        (write_fields inode offset bytes.now)) }
{
    print_file(out, "write", inode)?;
    print_number(out, "offset", offset as u64)?;
    print_bytes(out, bytes)
}

#[tactic(auto, unfolding(crate::specs::Operations::read_fields))]
fn print_read<O: Write>(out: &mut O, inode: u32, offset: u32, count: u32) -> Result<(), Unwritten>
    ensures ok { OnOk result (Appends (O.contents out.old) (O.contents out.new)
        (read_fields inode offset count)) }
{
    print_file(out, "read", inode)?;
    print_number(out, "offset", offset as u64)?;
    print_number(out, "count", count as u64)
}

fn print_attribute<O: Write>(out: &mut O, inode: u32, attribute: Attribute) -> Result<(), Unwritten>
    ensures ok { OnOk result (Appends (O.contents out.old) (O.contents out.new)
        (attribute_fields inode attribute)) }
{
    match attribute {
        Attribute::Links(links) => print_set(out, "links", inode, links as u64),
        Attribute::Size(size) => print_set(out, "resize", inode, size as u64),
    }
}

// Writes an operation of a file that sets a number.
#[tactic(auto, unfolding(crate::specs::Operations::set_fields))]
fn print_set<O: Write>(out: &mut O, word: &str, inode: u32, number: u64) -> Result<(), Unwritten>
    ensures ok { OnOk result (Appends (O.contents out.old) (O.contents out.new)
        (set_fields word.now inode number)) }
{
    print_file(out, word, inode)?;
    print_number(out, "to", number)
}
