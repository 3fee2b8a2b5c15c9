// The steps of operations that take an inode.
ghost use Rattle.std.specs.Prelude.{◌≡◌, ◌<◌, ◌≤◌, length, Some, None, if◌then◌else◌};
ghost use Rattle.model.specs.Format.{most_inodes};
ghost use Rattle.model.specs.declared.types.operations.Op.{Op};
ghost use Rattle.model.specs.Operations.{extension_refusal, transfer_limit};
ghost use Rattle.in_flight.specs.AttributeLaws.{with_value};
ghost use Rattle.inodes.specs.Looks.{CanLook, HasRoom};
ghost use Rattle.inodes.specs.Stages.{asked};
ghost use Rattle.inodes.specs.Growing.{bytes_of};
ghost use Rattle.inodes.specs.Writing.{extent_of};
ghost use Rattle.inodes.specs.Store.{KeepsFiles, with_look};
ghost use Rattle.inodes.specs.Steps.{Steps};
ghost use Rattle.inodes.specs.Table.{copy_at};
ghost use Rattle.inodes.specs.Tasks.{task};
ghost use Rattle.inodes.specs.Turning.{IsReadable, reply_of_attribute, stage_of_addition, stage_of_attribute, stage_of_read, stage_of_write, stage_when_taken, reply_when_taken, write_refusal};
ghost use Rattle.inodes.specs.declared.tasks.Stage.TheVariants as stands_at;

use crate::store::over;
use crate::{Extent, Freeing, Ilock, Inodes, Itrunc, Iupdate, Readi, Stage, Store, Writei};
use blocks::Disk;
use layout::{bitmap_block, greatest_size};
use model::gathered::Gathered;
use model::types::{Attribute, Dinode, Form, Op, Reply, TRANSFER_LIMIT, TaskProgress};
use std::snapshot::Snapshot;

impl<D: Disk> Store<D> {
    /// Begins the task of an operation that looks at a file, and opens nothing in the log. A reading
    /// hands in room for the bytes that it asks for.
    pub fn begin_look(&mut self, pid: u32, op: &Op, room: Option<Gathered>)
        requires fault { self.old.volume.fault ≡ None }
        requires pid { pid < length self.old.tasks }
        requires idle { (task self.old.tasks pid).stage ≡ stands_at.Nowhere }
        requires op { CanLook self.old.table.inode_count op.now }
        requires room { HasRoom op.now room }
        ensures store { self.new ≡ with_look self.old pid op.now room }
        ensures files { KeepsFiles D.image self.old self.new }
    {
        let lock = Ilock::new(asked(op));
        self.tasks.begin(pid, op, Stage::Taking(lock), room);
    }

    // The next step of taking the inode that an operation asks for.
    pub(crate) fn take(&mut self, pid: u32, op: &Op, mut lock: Ilock) -> TaskProgress
        requires fault { self.old.volume.fault ≡ None }
        requires pid { pid < length self.old.tasks }
        requires op { (task self.old.tasks pid).op ≡ Some op.now }
        requires at { (task self.old.tasks pid).stage ≡ stands_at.Taking lock }
        ensures step { Steps D.Disk self.old pid op.now result self.new }
    {
        self.volume.known();
        match over(lock.step(&mut self.inodes, &mut self.volume, pid)) {
            Ok(is_used) => {
                let place = lock.place();
                let inode = inode_at(&self.inodes, place, is_used);
                let form = self.inodes.form();
                let extent = extent_of(form, self.inodes.inode_count(), self.volume.log().size());
                self.tasks
                    .go(pid, stage_when_taken(&inode, place, op, extent));
                TaskProgress::Turned(reply_when_taken(form, &inode, op))
            }
            Err(progress) => {
                self.tasks.go_taking(pid, lock);
                progress
            }
        }
    }

    // The next step of a reading.
    pub(crate) fn read(&mut self, pid: u32, place: usize, reading: Snapshot<Readi>) -> TaskProgress
        requires fault { self.old.volume.fault ≡ None }
        requires pid { pid < length self.old.tasks }
        requires at { (task self.old.tasks pid).stage ≡ stands_at.Reading place reading.value }
        ensures step { (op : Op) → (task self.old.tasks pid).op ≡ Some op
            → Steps D.Disk self.old pid op result self.new }
    {
        self.volume.known();
        let mut bytes = self.tasks.take_bytes(pid);
        let progress = self
            .tasks
            .read_on(&mut self.volume, pid, &mut bytes, place, reading);
        self.tasks.keep_bytes(pid, bytes);
        match over(progress) {
            Ok(()) => {
                self.tasks.go(pid, Stage::Delivering { place });
                TaskProgress::Moved
            }
            Err(progress) => progress,
        }
    }

    // A reading gives its inode up, and answers its bytes.
    pub(crate) fn deliver(&mut self, pid: u32, place: usize) -> TaskProgress
        requires fault { self.old.volume.fault ≡ None }
        requires pid { pid < length self.old.tasks }
        requires at { (task self.old.tasks pid).stage ≡ stands_at.Delivering place }
        ensures step { (op : Op) → (task self.old.tasks pid).op ≡ Some op
            → Steps D.Disk self.old pid op result self.new }
    {
        self.inodes.leave(place);
        let bytes = self.tasks.take_bytes(pid);
        self.tasks.finish(pid);
        TaskProgress::Decided(Reply::Bytes(bytes.into_content()))
    }

    // The next step of freeing a file's blocks.
    pub(crate) fn truncate(
        &mut self,
        pid: u32,
        place: usize,
        trunc: Snapshot<Freeing>,
    ) -> TaskProgress
        requires fault { self.old.volume.fault ≡ None }
        requires pid { pid < length self.old.tasks }
        requires at { (task self.old.tasks pid).stage ≡ stands_at.Truncating place trunc.value }
        ensures step { (op : Op) → (task self.old.tasks pid).op ≡ Some op
            → Steps D.Disk self.old pid op result self.new }
    {
        self.volume.known();
        match over(self.tasks.trunc_on(&mut self.volume, pid, place, trunc)) {
            Ok(()) => {
                self.inodes.renew(place, self.tasks.left(pid));
                self.tasks.go(pid, Stage::Leaving { place });
                TaskProgress::Moved
            }
            Err(progress) => progress,
        }
    }

    // The next step of writing a file's bytes. With the inode's writing back the reply is known.
    pub(crate) fn write(
        &mut self,
        pid: u32,
        op: &Op,
        place: usize,
        writing: Snapshot<Writei>,
    ) -> TaskProgress
        requires fault { self.old.volume.fault ≡ None }
        requires pid { pid < length self.old.tasks }
        requires op { (task self.old.tasks pid).op ≡ Some op.now }
        requires at { (task self.old.tasks pid).stage ≡ stands_at.Writing place writing.value }
        ensures step { Steps D.Disk self.old pid op.now result self.new }
    {
        self.volume.known();
        let progress = self
            .tasks
            .write_on(&mut self.volume, pid, bytes_of(op), place, writing);
        match over(progress) {
            Ok(()) => {
                let (inode, done) = self.tasks.written(pid);
                self.inodes.renew(place, Some(inode));
                self.tasks.go(pid, Stage::Leaving { place });
                TaskProgress::Decided(Reply::Wrote(done))
            }
            Err(progress) => progress,
        }
    }

    // The next step of writing back an inode with an attribute set.
    pub(crate) fn set_attribute(
        &mut self,
        pid: u32,
        place: usize,
        inode: Dinode,
        update: Snapshot<Iupdate>,
    ) -> TaskProgress
        requires fault { self.old.volume.fault ≡ None }
        requires pid { pid < length self.old.tasks }
        requires at { (task self.old.tasks pid).stage
            ≡ stands_at.Setting place inode update.value }
        ensures step { (op : Op) → (task self.old.tasks pid).op ≡ Some op
            → Steps D.Disk self.old pid op result self.new }
    {
        self.volume.known();
        match over(
            self.tasks
                .set_on(&mut self.volume, pid, place, &inode, update),
        ) {
            Ok(()) => {
                self.inodes.renew(place, Some(inode));
                self.tasks.go(pid, Stage::Leaving { place });
                TaskProgress::Moved
            }
            Err(progress) => progress,
        }
    }

    // An operation that was answered gives its inode up.
    pub(crate) fn leave(&mut self, pid: u32, place: usize) -> TaskProgress
        requires fault { self.old.volume.fault ≡ None }
        requires pid { pid < length self.old.tasks }
        requires at { (task self.old.tasks pid).stage ≡ stands_at.Leaving place }
        ensures step { (op : Op) → (task self.old.tasks pid).op ≡ Some op
            → Steps D.Disk self.old pid op result self.new }
    {
        self.inodes.leave(place);
        self.tasks.finish(pid);
        TaskProgress::Over
    }
}

// The inode that was taken at a place of the table, if it is used.
fn inode_at(inodes: &Inodes, place: usize, is_used: bool) -> Option<Dinode>
    requires { place < 50 }
    ensures { result ≡ (if is_used then copy_at inodes.now.places place else None) }
{
    if is_used { inodes.copy(place) } else { None }
}

// The number of the inode that an operation asks for; 0 for a creation, which asks for none.
fn asked(op: &Op) -> u32
    ensures { result ≡ asked op.now }
{
    match op {
        Op::Create(_) => 0,
        Op::Write(number, ..)
        | Op::Read(number, ..)
        | Op::Trunc(number)
        | Op::Remove(number)
        | Op::Stat(number)
        | Op::SetAttribute(number, _) => *number,
    }
}

// The reply at the turn of an operation that has taken its inode, or found it free; None where it
// comes later.
fn reply_when_taken(form: Form, inode: &Option<Dinode>, op: &Op) -> Option<Reply>
    requires { length (bytes_of op.now) ≤ transfer_limit }
    ensures { result ≡ reply_when_taken form inode.now op.now }
{
    let Some(inode) = inode else {
        return Some(Reply::NoFile);
    };
    match op {
        Op::Stat(_) => Some(Reply::StatOf(inode.kind, inode.nlink, inode.size)),
        Op::Trunc(_) | Op::Remove(_) => Some(Reply::Done),
        Op::SetAttribute(_, attribute) => reply_of_attribute(form, inode, *attribute),
        Op::Write(_, offset, bytes) => write_refusal(form, inode, *offset, bytes.len()),
        Op::Create(_) | Op::Read(..) => None,
    }
}

// The refusal of a write of that many bytes that begins behind the file's end, or that no file of an
// image of that form has room for.
fn write_refusal(form: Form, inode: &Dinode, offset: u32, count: usize) -> Option<Reply>
    requires { count ≤ transfer_limit }
    ensures { result ≡ write_refusal form inode.now offset count }
{
    if offset > inode.size {
        return Some(Reply::BadOffset);
    }
    if offset as usize + count > greatest_size(form) as usize {
        return Some(Reply::TooBig);
    }
    None
}

// The reply of an attribute at its turn; None where the file gets longer.
fn reply_of_attribute(form: Form, inode: &Dinode, attribute: Attribute) -> Option<Reply>
    ensures { result ≡ reply_of_attribute form inode.now attribute }
{
    match attribute {
        Attribute::Size(size) if size > inode.size => extension_refusal(form, inode.size, size),
        Attribute::Size(_) | Attribute::Links(_) => Some(Reply::Done),
    }
}

// The refusal of a longer length, which adds more than one operation moves, or that no file of an
// image of that form has room for.
fn extension_refusal(form: Form, old: u32, size: u32) -> Option<Reply>
    requires { old < size }
    ensures { result ≡ extension_refusal form old size }
{
    if size - old > TRANSFER_LIMIT {
        return Some(Reply::TooLong);
    }
    if size > greatest_size(form) {
        return Some(Reply::TooBig);
    }
    None
}

// The inode with an attribute set; it keeps its addresses.
fn with_value(inode: &Dinode, attribute: Attribute) -> Dinode
    ensures { result ≡ with_value inode.now attribute }
{
    match attribute {
        Attribute::Links(nlink) => Dinode { nlink, ..*inode },
        Attribute::Size(size) => Dinode { size, ..*inode },
    }
}

// The zeroes of which a longer length adds the first ones.
static ZEROES: [u8; TRANSFER_LIMIT as usize] = [0; TRANSFER_LIMIT as usize];

// The bytes that an operation writes; those of any other are none.
fn bytes_of(op: &Op) -> &[u8]
    ensures { result.now ≡ bytes_of op.now }
{
    match op {
        Op::Write(_, _, bytes) => bytes.as_slice(),
        Op::SetAttribute(..) => &ZEROES,
        Op::Create(_) | Op::Read(..) | Op::Trunc(_) | Op::Remove(_) | Op::Stat(_) => &[],
    }
}

// Where blocks are taken in an image of that form, of so many inode numbers and blocks.
fn extent_of(form: Form, inode_count: u32, size: u32) -> Extent
    requires { inode_count ≤ most_inodes }
    ensures { result ≡ extent_of form inode_count size }
{
    Extent {
        form,
        bitmap: bitmap_block(inode_count),
        size,
    }
}

// Where it goes then, with the inode at that place of the table, over an image that takes its
// blocks there.
fn stage_when_taken(inode: &Option<Dinode>, place: usize, op: &Op, extent: Extent) -> Stage
    requires inode { IsReadable extent.form inode.now }
    requires few { length (bytes_of op.now) ≤ transfer_limit }
    ensures { result ≡ stage_when_taken extent inode.now place op.now }
{
    let Some(inode) = inode else {
        return Stage::Leaving { place };
    };
    let form = extent.form;
    let bitmap = extent.bitmap;
    match op {
        Op::Read(_, offset, count) => {
            stage_of_read(place, Readi::new(inode, form, *offset, *count))
        }
        Op::Trunc(number) => {
            let trunc = Freeing::new(Itrunc::new(*number, inode, form, false, bitmap));
            Stage::Truncating { place, trunc }
        }
        Op::Remove(number) => {
            let trunc = Freeing::new(Itrunc::new(*number, inode, form, true, bitmap));
            Stage::Truncating { place, trunc }
        }
        Op::Write(number, offset, bytes) => {
            stage_of_write(place, *number, inode, *offset, bytes.len(), extent)
        }
        Op::SetAttribute(number, attribute) => {
            stage_of_attribute(place, *number, inode, *attribute, extent)
        }
        Op::Create(_) | Op::Stat(_) => Stage::Leaving { place },
    }
}

// A write is refused, or begins with its bytes.
fn stage_of_write(
    place: usize,
    number: u32,
    inode: &Dinode,
    offset: u32,
    count: usize,
    extent: Extent,
) -> Stage
    requires addrs { length inode.now.addrs ≡ 13 }
    requires few { count ≤ transfer_limit }
    ensures { result ≡ stage_of_write place number inode.now offset count extent }
{
    if write_refusal(extent.form, inode, offset, count).is_some() {
        return Stage::Leaving { place };
    }
    let writing = Writei::new(number, inode, offset, count as u32, extent);
    Stage::Writing { place, writing }
}

// An inode with an attribute set is written back, or its file gets longer.
fn stage_of_attribute(
    place: usize,
    number: u32,
    inode: &Dinode,
    attribute: Attribute,
    extent: Extent,
) -> Stage
    requires addrs { length inode.now.addrs ≡ 13 }
    ensures { result ≡ stage_of_attribute place number inode.now attribute extent }
{
    match attribute {
        Attribute::Size(size) if size > inode.size => {
            stage_of_addition(place, number, inode, size, extent)
        }
        Attribute::Size(_) | Attribute::Links(_) => Stage::Setting {
            place,
            inode: with_value(inode, attribute),
            update: Iupdate::new(number),
        },
    }
}

// Zeroes are written behind the file's end up to that length, or it is refused.
fn stage_of_addition(place: usize, number: u32, inode: &Dinode, size: u32, extent: Extent) -> Stage
    requires addrs { length inode.now.addrs ≡ 13 }
    requires more { inode.now.size < size }
    ensures { result ≡ stage_of_addition place number inode.now size extent }
{
    if extension_refusal(extent.form, inode.size, size).is_some() {
        return Stage::Leaving { place };
    }
    let writing = Writei::new(number, inode, inode.size, size - inode.size, extent);
    Stage::Writing { place, writing }
}

// A reading begins with its bytes, or has all of them.
fn stage_of_read(place: usize, reading: Option<Readi>) -> Stage
    ensures { result ≡ stage_of_read place reading }
{
    match reading {
        Some(reading) => Stage::Reading { place, reading },
        None => Stage::Delivering { place },
    }
}
