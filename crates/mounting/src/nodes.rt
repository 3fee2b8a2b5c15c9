// What a mount keeps of files besides the tree, while it lasts: an image has no place for it.
ghost use Rattle.mounting.specs.Tells.{IsTold};

use crate::terms::{Moment, Terms};
use fuse::Attributes;
use names::Found;
use std::alloc::{AllocError, Global};

// The types of files, as modes have them.
const DIRECTORY_MODE: u32 = 0o040_000;

const FILE_MODE: u32 = 0o100_000;

const DEVICE_MODE: u32 = 0o020_000;

// What is kept of the file of a number.
#[derive(Clone, Copy)]
struct Node {
    // How many times it is open.
    opens: u32,
    // Its last name was removed while it was open: it has one aside, and goes when it is closed.
    unlinked: bool,
    // How many files had the number before.
    generation: u64,
    // Who may do what.
    mode: u32,
    seconds: u64,
    nanoseconds: u32,
}

// What is so of a file of which nothing was heard yet.
const UNHEARD: Node = Node {
    opens: 0,
    unlinked: false,
    generation: 0,
    mode: 0o755,
    seconds: 0,
    nanoseconds: 0,
};

/// What is kept of all files.
#[derive(Drop)]
pub(crate) struct Nodes {
    nodes: Vec<Node>,
    terms: Terms,
}

impl Nodes {
    /// Nothing of files of numbers below this one, under those terms.
    ///
    /// # Errors
    ///
    /// `AllocError` where memory is refused.
    pub(crate) fn new(alloc: Global, numbers: u32, terms: Terms) -> Result<Nodes, AllocError> {
        let mut nodes = Vec::new(alloc);
        for _number in 0..numbers {
            nodes.push(UNHEARD)?;
        }
        Ok(Nodes { nodes, terms })
    }

    /// How many numbers there are, the unused 0 among them.
    pub(crate) fn count(&self) -> u32 {
        match u32::try_from(self.nodes.len()) {
            Ok(count) => count,
            Err(_) => 0,
        }
    }

    /// How many files had the number before.
    pub(crate) fn generation(&self, number: u32) -> u64 {
        match self.nodes.get(number as usize) {
            Some(node) => node.generation,
            None => 0,
        }
    }

    /// Who may do what, and the time of a file, as far as the bits of `valid` tell that they are
    /// set; where the bit 256 is, to this moment.
    pub(crate) fn set(&mut self, number: u32, valid: u32, mode: u32, changed: Moment, now: Moment) {
        if let Some(node) = self.nodes.get_mut(number as usize) {
            if valid & 1 != 0 {
                node.mode = mode & 0o7777;
            }
            if valid & 32 != 0 {
                let time = if valid & 256 != 0 { now } else { changed };
                node.seconds = time.seconds;
                node.nanoseconds = time.nanoseconds;
            }
        }
    }

    /// What is told of a file. As its links its names are told that programs see, and of a directory
    /// that for itself, too, as Linux has it: an image counts a directory's other names.
    pub(crate) fn attributes(&self, found: &Found) -> Attributes
        ensures { IsTold found.now result }
    {
        let node = match self.nodes.get(found.number as usize) {
            Some(node) => *node,
            None => UNHEARD,
        };
        let kind = match found.kind {
            1 => DIRECTORY_MODE,
            2 => FILE_MODE,
            _ => DEVICE_MODE,
        };
        Attributes {
            number: u64::from(found.number),
            size: u64::from(found.size),
            pieces: u64::from(found.size.div_ceil(1024)) * 2,
            seconds: node.seconds,
            nanoseconds: node.nanoseconds,
            mode: kind + (node.mode & !self.terms.mask) % 4096,
            links: match (found.kind, node.unlinked) {
                (1, _) => u32::from(found.links).saturating_add(1),
                (_, true) => 0,
                _ => u32::from(found.links),
            },
            owner: self.terms.owner,
            group: self.terms.group,
        }
    }

    /// A file of that number was made, at this moment.
    pub(crate) fn made(&mut self, number: u32, mode: u32, now: Moment) {
        if let Some(node) = self.nodes.get_mut(number as usize) {
            node.opens = 0;
            node.unlinked = false;
            node.mode = mode & 0o7777;
            node.seconds = now.seconds;
            node.nanoseconds = now.nanoseconds;
        }
    }

    /// A name was removed of the file that is found so, which is gone if it had no other one.
    pub(crate) fn left(&mut self, found: &Found) {
        if found.links <= 1 {
            self.gone(found.number);
        }
    }

    /// The file of that number is gone.
    pub(crate) fn gone(&mut self, number: u32) {
        if let Some(node) = self.nodes.get_mut(number as usize) {
            node.generation = node.generation.saturating_add(1);
            node.unlinked = false;
            node.opens = 0;
        }
    }

    /// It was written into, at this moment.
    pub(crate) fn touched(&mut self, number: u32, now: Moment) {
        if let Some(node) = self.nodes.get_mut(number as usize) {
            node.seconds = now.seconds;
            node.nanoseconds = now.nanoseconds;
        }
    }

    /// It is open once more.
    pub(crate) fn opened(&mut self, number: u32) {
        if let Some(node) = self.nodes.get_mut(number as usize) {
            node.opens = node.opens.saturating_add(1);
        }
    }

    /// It is open once less. Whether it is to go now.
    pub(crate) fn closed(&mut self, number: u32) -> bool {
        let Some(node) = self.nodes.get_mut(number as usize) else {
            return false;
        };
        node.opens = node.opens.saturating_sub(1);
        node.opens == 0 && node.unlinked
    }

    /// Whether it is open.
    pub(crate) fn is_open(&self, number: u32) -> bool {
        matches!(self.nodes.get(number as usize), Some(node) if node.opens > 0)
    }

    /// Its last name was removed.
    pub(crate) fn unlinked(&mut self, number: u32) {
        if let Some(node) = self.nodes.get_mut(number as usize) {
            node.unlinked = true;
        }
    }
}
