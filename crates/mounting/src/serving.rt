// One request after the other.
ghost use Rattle.std.specs.Prelude.{◌≡◌, ◌≤◌, [], length, IfErr, IfOk, OnOk};
ghost use Rattle.fuse.specs.Requests.{asked, request_in};
ghost use Rattle.mounting.specs.Causes.{
  Hinders,
  HindersIf,
  IsHindered,
  IsHinderedBy,
  Leaves,
};
ghost use Rattle.mounting.specs.Changes.{
  Begins,
  BeginsIf,
  DidAsked,
  DidAskedIf,
  DidServe,
  Makes,
  MayMake,
  MayMakeIf,
  MayServe,
  RemovesAside,
};
ghost use Rattle.mounting.specs.Serving.{HasAnswer};
ghost use Rattle.names.specs.Inside.{form_seen};
ghost use Rattle.names.specs.Ready.{MayGoOn};
ghost use Rattle.names.specs.Runs.{HasRun};

use crate::answering::put_answer;
use crate::errno::Errno;
use crate::listings::sweep;
use crate::nodes::Nodes;
use crate::terms::{Moment, Terms};
use blocks::Disk;
use fuse::{HEADER_SIZE, Request, read_header, read_request, wants_none};
use names::Tree;
use std::alloc::{AllocError, Global};

/// The most bytes that one write brings, and that one read asks for.
pub const MOST: u32 = 1_048_576;

// An answer has fewer.
const MOST_ANSWERED: usize = 4_194_304;

// For so many seconds the system may rely on what it was told: nobody else changes the files.
const VALID: u64 = 3600;

/// What became of a request.
#[derive(Clone, Copy, Debug, PartialEq, Eq)]
pub enum Served {
    /// It has an answer.
    Answered,
    /// It has none, and wants none.
    Unanswered,
}

/// What a mount is, besides its tree.
#[derive(Drop)]
pub struct Server {
    pub(crate) nodes: Nodes,
    pub(crate) terms: Terms,
    pub(crate) valid: u64,
    // Bytes that were moved since the tree was opened.
    pub(crate) moved: u64,
}

impl Server {
    /// The server of a tree. Files are removed to which a stop left only a name aside.
    ///
    /// # Errors
    ///
    /// `NoMemory` where memory is refused, and each of a removal.
    pub fn new<D: Disk>(alloc: Global, tree: &mut Tree<D>, terms: Terms) -> Result<Server, Errno>
        requires ready { MayGoOn D.Disk tree.old.kernel tree.old.calls_left }
        ensures ready { MayGoOn D.Disk tree.new.kernel tree.new.calls_left }
        ensures runs { HasRun D.Disk (RemovesAside (form_seen D.image tree.old.kernel))
            tree.old.kernel tree.new.kernel tree.old.calls_left tree.new.calls_left }
    {
        sweep(alloc, tree)?;
        let nodes = Nodes::new(alloc, tree.number_count(), terms)?;
        Ok(Server {
            nodes,
            terms,
            valid: VALID,
            moved: 0,
        })
    }

    /// How many bytes were moved since the tree was opened, whose journal has them in memory.
    pub fn moved(&self) -> u64 {
        self.moved
    }

    /// The tree was opened anew.
    pub fn opened_anew(&mut self) {
        self.moved = 0;
    }

    /// Serves the request of these bytes at a moment. Its answer takes the place of what is in
    /// `out`; `body` is room for it.
    ///
    /// # Errors
    ///
    /// `AllocError` where memory for the answer is refused.
    pub fn serve<D: Disk>(
        &mut self,
        alloc: Global,
        tree: &mut Tree<D>,
        bytes: &[u8],
        now: Moment,
        body: &mut Vec<u8>,
        out: &mut Vec<u8>,
    ) -> Result<Served, AllocError>
        requires ready { MayGoOn D.Disk tree.old.kernel tree.old.calls_left }
        ensures ready { MayGoOn D.Disk tree.new.kernel tree.new.calls_left }
        ensures runs { HasRun D.Disk (MayServe (form_seen D.image tree.old.kernel) bytes.now)
            tree.old.kernel tree.new.kernel tree.old.calls_left tree.new.calls_left }
        ensures answered { IfOk result (HasAnswer
            (DidServe D.Disk bytes.now tree.old.kernel tree.new.kernel)
            (IsHinderedBy D.Disk bytes.now tree.old.kernel tree.new.kernel tree.new.calls_left)
            bytes.now out.new.items) }
    {
        let Some(header) = read_header(bytes) else {
            return Ok(Served::Unanswered);
        };
        if wants_none(header.opcode) {
            return Ok(Served::Unanswered);
        }
        body.clear();
        let asked = &bytes[HEADER_SIZE..];
        match self.told(alloc, tree, header.opcode, header.node, asked, now, body) {
            Ok(()) => put_answer(out, 0, header.unique, body.as_slice())?,
            Err(errno) => put_answer(out, errno.number(), header.unique, &[])?,
        }
        Ok(Served::Answered)
    }

    // Does what is asked, and adds what is told of it.
    fn told<D: Disk>(
        &mut self,
        alloc: Global,
        tree: &mut Tree<D>,
        opcode: u32,
        node: u64,
        asked: &[u8],
        now: Moment,
        out: &mut Vec<u8>,
    ) -> Result<(), Errno>
        requires ready { MayGoOn D.Disk tree.old.kernel tree.old.calls_left }
        ensures ready { MayGoOn D.Disk tree.new.kernel tree.new.calls_left }
        ensures makes { Makes D.Disk (λ form. MayMakeIf form node (request_in opcode asked.now))
            tree.old.kernel tree.new.kernel tree.old.calls_left tree.new.calls_left }
        ensures does { OnOk result (out.old.items ≡ [] → DidAskedIf D.Disk node
            (request_in opcode asked.now) out.new.items tree.old.kernel tree.new.kernel) }
        ensures hindered { IfErr result (IsHindered D.Disk
            (HindersIf node (request_in opcode asked.now)) tree.new.kernel tree.new.calls_left) }
        ensures few { OnOk result (length out.new.items ≤ 4194304) }
        ensures kept { IfErr result (Leaves D.Disk (BeginsIf node (request_in opcode asked.now))
            tree.old.kernel tree.new.kernel tree.new.calls_left) }
    {
        let Some(request) = read_request(opcode, asked) else {
            return Err(Errno::Invalid);
        };
        let Ok(node) = u32::try_from(node) else {
            return Err(Errno::NoEntry);
        };
        self.answer(alloc, tree, node, &request, now, out)?;
        if out.len() > MOST_ANSWERED {
            return Err(Errno::NoMemory);
        }
        Ok(())
    }

    // Does what is asked, and adds what is told of it.
    fn answer<D: Disk>(
        &mut self,
        alloc: Global,
        tree: &mut Tree<D>,
        node: u32,
        request: &Request<'_>,
        now: Moment,
        out: &mut Vec<u8>,
    ) -> Result<(), Errno>
        requires ready { MayGoOn D.Disk tree.old.kernel tree.old.calls_left }
        ensures ready { MayGoOn D.Disk tree.new.kernel tree.new.calls_left }
        ensures makes { Makes D.Disk (λ form. MayMake form node (asked request.now))
            tree.old.kernel tree.new.kernel tree.old.calls_left tree.new.calls_left }
        ensures does { OnOk result (out.old.items ≡ [] → DidAsked D.Disk node
            (asked request.now) out.new.items tree.old.kernel tree.new.kernel) }
        ensures hindered { IfErr result (IsHindered D.Disk (Hinders node (asked request.now))
            tree.new.kernel tree.new.calls_left) }
        ensures kept { IfErr result (Leaves D.Disk (Begins node (asked request.now))
            tree.old.kernel tree.new.kernel tree.new.calls_left) }
    {
        match request {
            Request::SetAttributes { .. } => self.change_file(alloc, tree, node, request, now, out),
            Request::Write { .. } => self.change_file(alloc, tree, node, request, now, out),
            Request::MakeNode { .. } => self.add_file(alloc, tree, node, request, now, out),
            Request::Create { .. } => self.add_file(alloc, tree, node, request, now, out),
            Request::MakeDirectory { .. } => self.add_file(alloc, tree, node, request, now, out),
            Request::Link { .. } => self.add_file(alloc, tree, node, request, now, out),
            Request::Unlink { .. } => self.take_name(alloc, tree, node, request, now),
            Request::RemoveDirectory { .. } => self.take_name(alloc, tree, node, request, now),
            Request::Rename { .. } => self.take_name(alloc, tree, node, request, now),
            Request::Release => self.take_name(alloc, tree, node, request, now),
            request => self.look(alloc, tree, node, request, out),
        }
    }
}
