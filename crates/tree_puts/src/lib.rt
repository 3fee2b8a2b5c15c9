//! A file or a folder of the system, put under a path of the image in a file, and a file of that image,
//! copied within it. More bytes than one call writes, and what is below a folder, are put into a copy of
//! the image, which then takes its place; where that is not the way, bytes into the image where it stands.
#![tactic(auto)]

mod anew;
mod copying;
mod folders;
mod gathering;
mod putting;
mod refused;

pub use copying::CopyFile;
pub use folders::{FolderRefusal, PutFolder};
pub use gathering::{FolderFault, gather};
pub use putting::PutFile;
pub use refused::PutRefusal;
