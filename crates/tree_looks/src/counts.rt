// The counts of links of files that are not how many names lead to them, and the flaws of other files.
ghost use Rattle.std.specs.Prelude.{◌≡◌, ◌++◌, None, IfErr, IfOk, OnOk};
ghost use Rattle.blocks.specs.Calls.{OnlyReads};
ghost use Rattle.model.specs.Files.{files_of};
ghost use Rattle.model.specs.Log.{recovered};
ghost use Rattle.model.specs.Verdict.{verdict};
ghost use Rattle.directories.specs.Trees.{IsTree};
ghost use Rattle.tree_looks.specs.Listing.{count_line, count_told, wrong_counts, wrong_told};
ghost use Rattle.tree_looks.specs.Looks.{HasLooked, HasNotCounted, IsTextOf, IsUnseen, IsUntold, OfTree, TellsCounts};

use crate::faults::LookRefusal;
use crate::flaws::flaws_told;
use crate::loading::{load, refusal_of};
use crate::objects::{add_count_element, end_text};
use crate::over_files::print_text;
use crate::texts::{ByPath, add_below, add_number};
use blocks::{Disk, NoMemory};
use cmd::DiskCommand;
use directories::files::links_at;
use directories::{DIRECTORY, Refusal, is_tree, name_counts};
use model::types::File;
use std::alloc::Global;
use std::io::Write;

/// Tells which files of a disk, as recovery would leave them, have a count of links that is not how
/// many names lead to them: a line for each path of such a file, from the root on. Of a directory its
/// own name for itself is not counted, as in xv6. Of files that are no tree it tells each flaw, with its
/// path and its number, and then refuses them as no tree. Either may be an array of JSON with an object
/// for each. It writes no block.
#[derive(Clone, Copy, Drop)]
pub struct Counts {
    /// Whether they are told as JSON.
    pub json: bool,
}

impl DiskCommand for Counts {
    type Refusal = LookRefusal;

    ghost done = { λ counts c. HasLooked c.disk (OfTree (TellsCounts counts.json)) c.was c.now };

    ghost refused = { λ counts c. HasNotCounted c.disk counts.json c.was c.now };

    fn run_on<D: Disk + Drop, O: Write>(
        self,
        alloc: Global,
        disk: D,
        out: &mut O,
    ) -> (Result<(), LookRefusal>, D) {
        let mut disk = disk;
        let ended = tell_counts(alloc, &mut disk, self.json, out);
        (ended, disk)
    }
}

// What is told of files.
#[derive(Drop)]
pub enum Text {
    // Of a tree its wrong counts.
    Counts(Vec<u8>),
    // Of others their flaws.
    Flaws(Vec<u8>),
}

// Prints what is told of the files of a disk.
fn tell_counts<D: Disk, O: Write>(
    alloc: Global,
    disk: &mut D,
    json: bool,
    out: &mut O,
) -> Result<(), LookRefusal>
    ensures looked { OnOk result (HasLooked D.Disk (OfTree (TellsCounts json)) disk.old disk.new
        (O.contents out.old) (O.contents out.new)) }
    ensures refused { IfErr result (HasNotCounted D.Disk json disk.old disk.new
        (O.contents out.old) (O.contents out.new) (out.new ≡ out.old)) }
{
    match text_of(alloc, disk, json) {
        Ok(Text::Counts(text)) => print_text(out, text.as_slice()),
        Ok(Text::Flaws(text)) => match print_text(out, text.as_slice()) {
            Ok(()) => Err(LookRefusal::NoTree),
            Err(refusal) => Err(refusal),
        },
        Err(refusal) => Err(refusal),
    }
}

// What is told of the files of a disk.
fn text_of<D: Disk>(alloc: Global, disk: &mut D, json: bool) -> Result<Text, LookRefusal>
    ensures sound { OnOk result (verdict (D.image disk.old) ≡ None) }
    ensures tells { IfOk result (IsTextOf json (files_of (recovered (D.image disk.old)))) }
    ensures reads { OnlyReads D.Disk disk.old disk.new }
    ensures refused { IfErr result (IsUnseen D.Disk IsUntold disk.old disk.new) }
{
    match load(alloc, disk) {
        Ok(files) => text_with(alloc, disk, files.as_slice(), json),
        Err(refusal) => Err(refusal),
    }
}

// What is told of a disk with these files.
fn text_with<D: Disk>(
    alloc: Global,
    disk: &mut D,
    files: &[Option<File>],
    json: bool,
) -> Result<Text, LookRefusal>
    requires sound { verdict (D.image disk.old) ≡ None }
    requires files { files.now ≡ files_of (recovered (D.image disk.old)) }
    ensures tells { IfOk result (IsTextOf json (files_of (recovered (D.image disk.old)))) }
    ensures reads { OnlyReads D.Disk disk.old disk.new }
    ensures refused { IfErr result (IsUnseen D.Disk IsUntold disk.old disk.new) }
{
    match is_tree(alloc, disk) {
        Ok(true) => counts_with(alloc, disk, files, json),
        Ok(false) => match flaws_told(alloc, files, json) {
            Ok(text) => Ok(Text::Flaws(text)),
            Err(_refused) => Err(LookRefusal::NoMemory),
        },
        Err(fault) => Err(refusal_of(fault)),
    }
}

// The wrong counts of a disk with these files, which are a tree.
fn counts_with<D: Disk>(
    alloc: Global,
    disk: &mut D,
    files: &[Option<File>],
    json: bool,
) -> Result<Text, LookRefusal>
    requires sound { verdict (D.image disk.old) ≡ None }
    requires tree { IsTree (files_of (recovered (D.image disk.old))) }
    requires files { files.now ≡ files_of (recovered (D.image disk.old)) }
    ensures tells { IfOk result (IsTextOf json (files_of (recovered (D.image disk.old)))) }
    ensures reads { OnlyReads D.Disk disk.old disk.new }
    ensures refused { IfErr result (IsUnseen D.Disk IsUntold disk.old disk.new) }
{
    match name_counts(alloc, disk) {
        Ok(Some(counts)) => match wrong_counts(alloc, files, counts.as_slice(), json) {
            Ok(text) => Ok(Text::Counts(text)),
            Err(_refused) => Err(LookRefusal::NoMemory),
        },
        Ok(None) => Err(LookRefusal::Refused(Refusal::TooManyLinks)),
        Err(fault) => Err(refusal_of(fault)),
    }
}

// What is told of files to whose numbers so many names lead.
fn wrong_counts(
    alloc: Global,
    files: &[Option<File>],
    counts: &[u16],
    json: bool,
) -> Result<Vec<u8>, NoMemory>
    ensures { IfOk result (λ text. text.items ≡ wrong_counts json files.now counts.now) }
{
    let mut text = Vec::new(alloc);
    let wrong = Wrong {
        files,
        counts,
        json,
    };
    wrong.add(&mut text, b"/", DIRECTORY)?;
    add_below(&mut text, &wrong, files, b"/", DIRECTORY, files.len())?;
    end_text(&mut text, json)?;
    Ok(text)
}

// A file whose count is another one than that of its number here, as an element of JSON or as a line.
#[derive(Clone, Copy, Drop)]
struct Wrong<'a> {
    files: &'a [Option<File>],
    counts: &'a [u16],
    json: bool,
}

impl<'a> ByPath for Wrong<'a> {
    ghost tells = { λ wrong. wrong_told wrong.json wrong.files.now wrong.counts.now };

    fn add(&self, text: &mut Vec<u8>, path: &[u8], number: u32) -> Result<(), NoMemory> {
        let links = links_at(self.files, number);
        let names = match self.counts.get(number as usize) {
            Some(names) => *names,
            None => 0,
        };
        if links == names {
            return Ok(());
        }
        add_count(
            text,
            path,
            u64::from(number),
            links,
            u32::from(names),
            self.json,
        )
    }
}

// Adds a file's count of links and how many names lead to it.
pub fn add_count(
    text: &mut Vec<u8>,
    path: &[u8],
    number: u64,
    links: u16,
    names: u32,
    json: bool,
) -> Result<(), NoMemory>
    ensures { OnOk result
        (text.new.items ≡ text.old.items ++ count_told json path.now number links names) }
{
    if json {
        return add_count_element(text, path, number, links, names);
    }
    let line = line_of(*text.allocator(), path, number, links, names)?;
    text.extend_from_slice(line.as_slice())?;
    Ok(())
}

// Their line.
fn line_of(
    alloc: Global,
    path: &[u8],
    number: u64,
    links: u16,
    names: u32,
) -> Result<Vec<u8>, NoMemory>
    ensures { IfOk result (λ line. line.items ≡ count_line path.now number links names) }
{
    let mut line = Vec::from_slice(alloc, path)?;
    line.extend_from_slice(b" ")?;
    add_number(&mut line, number)?;
    line.extend_from_slice(b" links ")?;
    add_number(&mut line, u64::from(links))?;
    line.extend_from_slice(b" names ")?;
    add_number(&mut line, u64::from(names))?;
    line.extend_from_slice(b"\n")?;
    Ok(line)
}
