//! The records of FUSE, by which Linux asks a program for the files of a mount: requests, read from
//! their bytes, and answers, as bytes. They are those of protocol 7.31 of `linux/fuse.h`; numbers
//! have the lowest byte first, as on the processors that we run on.
//!
//! A request is a header of 40 bytes and a body, which `read_header` and `read_request` read.
//! `laws` says that what is written is read again.
#![tactic(auto)]

mod answers;
mod bodies;
mod fields;
mod header;
pub mod laws;
mod names;
mod opcodes;
mod request;

pub use answers::{
    Attributes, FileSystem, Opened, add_attributes, add_entry, directory_entry, init_answer,
    opened_answer, padding_of, statfs_answer, wrote_answer,
};
pub use header::{ANSWER_HEADER_SIZE, HEADER_SIZE, Header, answer_header, read_header};
pub use request::{Request, read_request, wants_none};
