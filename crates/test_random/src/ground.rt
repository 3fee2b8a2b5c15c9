// The images over which the scripts of a setting are run.
use crate::playing::{Failure, Outcome, run};
use crate::reading::{blocks_of, if_done};
use crate::script::Script;
use crate::setting::Setting;
use crate::tally::Tally;
use crate::wrong::What;
use blocks::{Block, Disk, MemDisk};
use model::content::Content;
use model::types::File;
use offline::mkfs_as;
use reference::files::Files;
use std::alloc::Global;

/// An image over which the script of a seed is run again and again, and its files.
#[derive(Drop)]
pub struct Ground {
    pub seed: u64,
    pub setting: Setting,
    blocks: Vec<Block>,
    pub files: Files,
}

impl Ground {
    /// That of a seed and a setting: a new image, or one in which the script's first operations were
    /// made.
    pub fn new(alloc: Global, seed: u64, setting: Setting) -> Result<Ground, What> {
        if setting.laid == 0 {
            return fresh(alloc, seed, setting);
        }
        let beginning = fresh(alloc, seed, setting.beginning())?;
        lay(alloc, &beginning, setting)
    }

    /// The script, at its beginning.
    pub fn script(&self) -> Script {
        Script::new(self.seed, self.setting)
    }

    /// Whether the call of this number is one of those that are made to fail.
    pub fn fails(&self, nth: u64) -> bool {
        nth.wrapping_add(self.seed) % self.setting.each as u64 == 0
    }

    /// A disk with the image.
    pub fn disk(&self, alloc: Global) -> Result<MemDisk, What> {
        let mut disk = MemDisk::new(alloc, self.blocks.len().min(8191) as u32)?;
        if_done(write_all(&mut disk, &self.blocks), disk)
    }

    /// A copy of its files.
    pub fn copied_files(&self, alloc: Global) -> Result<Files, What> {
        let mut files = Vec::new(alloc);
        if_done(copy_all(alloc, &self.files, &mut files), files)
    }
}

// A new image.
fn fresh(alloc: Global, seed: u64, setting: Setting) -> Result<Ground, What> {
    let mut disk = MemDisk::new(alloc, setting.size)?;
    let blocks = made_blocks(alloc, &mut disk, setting);
    make_ground(seed, setting, blocks, no_files(alloc, setting.inode_count))
}

fn made_blocks(alloc: Global, disk: &mut MemDisk, setting: Setting) -> Result<Vec<Block>, What> {
    mkfs_as(alloc, disk, setting.size, setting.inode_count, setting.form)?;
    blocks_of(alloc, disk)
}

// Makes the operations with which a script begins over such an image, in the turns of one process.
fn lay(alloc: Global, beginning: &Ground, setting: Setting) -> Result<Ground, What> {
    let disk = beginning.disk(alloc)?;
    let mut outcome = Outcome::new(alloc);
    let mut disk = run(
        alloc,
        disk,
        beginning,
        Failure::none(),
        &mut Tally::new(),
        &mut outcome,
    );
    let blocks = blocks_of(alloc, &mut disk);
    make_ground(beginning.seed, setting, blocks, outcome.into_files())
}

fn make_ground(
    seed: u64,
    setting: Setting,
    blocks: Result<Vec<Block>, What>,
    files: Result<Files, What>,
) -> Result<Ground, What> {
    match (blocks, files) {
        (Ok(blocks), Ok(files)) => Ok(Ground {
            seed,
            setting,
            blocks,
            files,
        }),
        (Err(what), _) | (_, Err(what)) => Err(what),
    }
}

// No file for any number.
fn no_files(alloc: Global, inode_count: u32) -> Result<Files, What> {
    let mut files = Vec::new(alloc);
    for _number in 0..inode_count {
        files.push(None)?;
    }
    Ok(files)
}

fn copy_all(alloc: Global, files: &[Option<File>], copies: &mut Files) -> Result<(), What> {
    for place in files {
        copies.push(copied(alloc, place)?)?;
    }
    Ok(())
}

fn copied(alloc: Global, place: &Option<File>) -> Result<Option<File>, What> {
    let Some(file) = place else {
        return Ok(None);
    };
    Ok(Some(File {
        kind: file.kind,
        links: file.links,
        bytes: Content::copy_of(alloc, file.bytes.as_slice())?,
    }))
}

fn write_all(disk: &mut MemDisk, blocks: &[Block]) -> Result<(), What> {
    for (b, block) in (0..disk.size()).zip(blocks) {
        if b < disk.size() {
            disk.write(b, block)?;
        }
    }
    Ok(())
}
