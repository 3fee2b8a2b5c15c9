// What is told of a run besides its steps.
use crate::anew::Anew;

#[derive(Drop)]
pub struct Scene {
    // The inode numbers of its image.
    pub inode_count: u32,
    // What it was made of.
    pub anew: Anew,
}
