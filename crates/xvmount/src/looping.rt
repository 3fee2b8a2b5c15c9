// Requests read, and answers written.
ghost use Rattle.std.specs.Prelude.{IfOk};
ghost use Rattle.names.specs.Ready.{MayGoOn};

use crate::images::{data_blocks, open};
use crate::options::Options;
use crate::refusal::MountRefusal;
use crate::syncing::{Device, put_unsynced, sync_asked};
use blocks::Disk;
use mounting::{Errno, Moment, Served, Server, Terms};
use names::Tree;
use std::alloc::{AllocError, Global};
use std::fs::OpenFile;
use std::io::{ErrorKind, Read, Write};
use std::time::{Clock, SystemTime, UNIX_EPOCH};

// A request with the most bytes of a write, and its headers.
const BUFFER: usize = 1_114_112;

// So many bytes are moved, or requests served, before the tree is opened anew: its journal has them
// in memory.
const MOST_MOVED: u64 = 16_777_216;

const MOST_SERVED: u32 = 100_000;

// What is held for one request after the other.
#[derive(Drop)]
struct Buffers {
    request: Vec<u8>,
    body: Vec<u8>,
    answer: Vec<u8>,
}

impl Buffers {
    fn new(alloc: Global) -> Result<Buffers, AllocError> {
        Ok(Buffers {
            request: vec![in alloc; 0u8; BUFFER]?,
            body: Vec::with_capacity(alloc, BUFFER)?,
            answer: Vec::with_capacity(alloc, BUFFER)?,
        })
    }
}

// How the next request came.
enum Next {
    // It has so many bytes.
    Request(usize),
    // A signal came first, or it was given up before it was read.
    None,
    // There is none: it is unmounted.
    End,
}

fn read_next<I: Read>(input: &mut I, buffer: &mut Vec<u8>) -> Next {
    match input.read(buffer.as_mut_slice()) {
        Ok(0) => Next::End,
        Ok(count) => Next::Request(count),
        Err(error) => match error.kind() {
            ErrorKind::Interrupted | ErrorKind::NotFound | ErrorKind::WouldBlock => Next::None,
            _ => Next::End,
        },
    }
}

// The moment, or the first of 1970 where the clock fails.
fn moment<R: Clock>(rt: &R) -> Moment {
    match SystemTime::now(rt) {
        Ok(now) => match now.duration_since(UNIX_EPOCH) {
            Ok(since) => Moment {
                seconds: since.as_secs(),
                nanoseconds: since.subsec_nanos(),
            },
            Err(_) => first_moment(),
        },
        Err(_) => first_moment(),
    }
}

fn first_moment() -> Moment {
    Moment {
        seconds: 0,
        nanoseconds: 0,
    }
}

/// Serves the files of a disk, up to the last request. Each change is committed before it is
/// answered. A request for a sync is answered once the device was synced, and so is the end.
///
/// # Errors
///
/// `Unopened` where no tree is opened over it, `NoMemory`, `NoCall` where a file that a stop left
/// aside isn't removed, and `Unsynced` where a sync of the device failed.
pub fn serve_disk<R: Clock, D: Disk + Drop, F: OpenFile, I: Read, O: Write>(
    rt: &R,
    alloc: Global,
    disk: D,
    device: &mut Device<F>,
    options: Options,
    input: &mut I,
    output: &mut O,
) -> Result<(), MountRefusal> {
    let mut disk = disk;
    let Ok(blocks) = data_blocks(alloc, &mut disk) else {
        return Err(MountRefusal::NoMemory);
    };
    let terms = Terms {
        owner: options.owner,
        group: options.group,
        mask: options.mask,
        blocks,
    };
    match open(alloc, disk) {
        Ok(tree) => serve_tree(rt, alloc, tree, device, terms, input, output),
        Err(refusal) => Err(refusal),
    }
}

// Serves the files of a tree.
fn serve_tree<R: Clock, D: Disk + Drop, F: OpenFile, I: Read, O: Write>(
    rt: &R,
    alloc: Global,
    tree: Tree<D>,
    device: &mut Device<F>,
    terms: Terms,
    input: &mut I,
    output: &mut O,
) -> Result<(), MountRefusal>
    requires { MayGoOn D.Disk tree.kernel tree.calls_left }
{
    let mut tree = tree;
    match Server::new(alloc, &mut tree, terms) {
        Ok(server) => serve(rt, alloc, tree, device, server, input, output),
        Err(Errno::NoMemory) => Err(MountRefusal::NoMemory),
        Err(_errno) => Err(MountRefusal::NoCall),
    }
}

// Serves requests up to the last one.
fn serve<R: Clock, D: Disk + Drop, F: OpenFile, I: Read, O: Write>(
    rt: &R,
    alloc: Global,
    tree: Tree<D>,
    device: &mut Device<F>,
    server: Server,
    input: &mut I,
    output: &mut O,
) -> Result<(), MountRefusal>
    requires ready { MayGoOn D.Disk tree.kernel tree.calls_left }
{
    let mut tree = tree;
    let mut server = server;
    let Ok(mut buffers) = Buffers::new(alloc) else {
        return Err(MountRefusal::NoMemory);
    };
    for request in 0..u64::MAX {
        match turn(
            rt,
            alloc,
            &mut tree,
            device,
            &mut server,
            input,
            output,
            &mut buffers,
        ) {
            Ok(true) => {}
            Ok(false) => return ended(device),
            Err(_refused) => return Err(MountRefusal::NoMemory),
        }
        let anew = request % u64::from(MOST_SERVED) == u64::from(MOST_SERVED) - 1;
        match kept(alloc, tree, &mut server, anew) {
            Ok(again) => tree = again,
            Err(refusal) => return Err(refusal),
        }
    }
    Ok(())
}

// The end of a mount, whose device is synced.
fn ended<F: OpenFile>(device: &mut Device<F>) -> Result<(), MountRefusal> {
    if device.is_synced() {
        Ok(())
    } else {
        Err(MountRefusal::Unsynced)
    }
}

// Serves the next request. Whether there may be another one.
fn turn<R: Clock, D: Disk, F: OpenFile, I: Read, O: Write>(
    rt: &R,
    alloc: Global,
    tree: &mut Tree<D>,
    device: &mut Device<F>,
    server: &mut Server,
    input: &mut I,
    output: &mut O,
    buffers: &mut Buffers,
) -> Result<bool, AllocError>
    requires ready { MayGoOn D.Disk tree.old.kernel tree.old.calls_left }
    ensures ready { MayGoOn D.Disk tree.new.kernel tree.new.calls_left }
{
    match read_next(input, &mut buffers.request) {
        Next::End => Ok(false),
        Next::None => Ok(true),
        Next::Request(count) => {
            let served = serve_one(rt, alloc, tree, server, count, buffers)?;
            sync_where_asked(device, count, buffers)?;
            tell(served, output, buffers.answer.as_slice());
            Ok(true)
        }
    }
}

// Syncs the device where the request of so many bytes asks for it, whose answer is another one where that
// fails.
fn sync_where_asked<F: OpenFile>(
    device: &mut Device<F>,
    count: usize,
    buffers: &mut Buffers,
) -> Result<(), AllocError> {
    let request = buffers.request.as_slice();
    let Some(unique) = sync_asked(&request[..count.min(request.len())]) else {
        return Ok(());
    };
    if device.is_synced() {
        return Ok(());
    }
    put_unsynced(unique, &mut buffers.answer)
}

// Writes an answer, where there is one. One that is given up meanwhile isn't waited for.
fn tell<O: Write>(served: Served, output: &mut O, answer: &[u8]) {
    if served == Served::Answered {
        let _unwritten = output.write(answer);
    }
}

// The tree, which is opened anew where that is asked for, where its journal has much in memory, or
// where a call of it failed.
fn kept<D: Disk + Drop>(
    alloc: Global,
    tree: Tree<D>,
    server: &mut Server,
    anew: bool,
) -> Result<Tree<D>, MountRefusal>
    requires { MayGoOn D.Disk tree.kernel tree.calls_left }
    ensures { IfOk result (λ tree. MayGoOn D.Disk tree.kernel tree.calls_left) }
{
    if !anew && tree.may_call() && server.moved() <= MOST_MOVED {
        return Ok(tree);
    }
    server.opened_anew();
    open(alloc, tree.into_disk())
}

// Serves a request of so many bytes.
fn serve_one<R: Clock, D: Disk>(
    rt: &R,
    alloc: Global,
    tree: &mut Tree<D>,
    server: &mut Server,
    count: usize,
    buffers: &mut Buffers,
) -> Result<Served, AllocError>
    requires ready { MayGoOn D.Disk tree.old.kernel tree.old.calls_left }
    ensures ready { MayGoOn D.Disk tree.new.kernel tree.new.calls_left }
{
    let request = buffers.request.as_slice();
    let request = &request[..count.min(request.len())];
    server.serve(
        alloc,
        tree,
        request,
        moment(rt),
        &mut buffers.body,
        &mut buffers.answer,
    )
}
