//! The plain types that contracts and calls speak of, by subject.
mod fault;
mod image;
mod operations;
mod progress;

pub use fault::CheckFault;
pub use image::{Dinode, File, Form, Pointer, Super};
pub use operations::{
    Answer, Attribute, Entry, Op, Reply, Step, TRANSFER_LIMIT, TaskProgress, Why,
};
pub use progress::Progress;
