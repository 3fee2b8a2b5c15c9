//! Files that were read from an image, at the index of its number each.
ghost use Rattle.std.specs.Prelude.{◌≡◌, ◌↔◌, IsTrue};
ghost use Rattle.std.specs.Option.{option_copied};
ghost use Rattle.model.specs.Files.{file_in};
ghost use Rattle.directories.specs.Trees.{bytes_of, kind_of, links_of, IsDirectory};

use crate::directory::DIRECTORY_KIND;
use model::types::File;

/// The file of a number, if there is one.
pub fn file_in(files: &[Option<File>], number: usize) -> Option<&File>
    ensures { option_copied result ≡ file_in files.now number }
{
    match files.get(number) {
        Some(Some(file)) => Some(file),
        _ => None,
    }
}

/// The type of a file, and 0 where there is none.
pub fn kind_of(file: Option<&File>) -> u16
    ensures { result ≡ kind_of (option_copied file.entry) }
{
    match file {
        Some(file) => file.kind,
        None => 0,
    }
}

/// A file's count of links, and 0 where there is none.
pub fn links_of(file: Option<&File>) -> u16
    ensures { result ≡ links_of (option_copied file.entry) }
{
    match file {
        Some(file) => file.links,
        None => 0,
    }
}

/// The bytes of a file; none where there is no file.
pub fn bytes_of<'a>(file: Option<&'a File>) -> &'a [u8]
    ensures { result.now ≡ bytes_of (option_copied file.entry) }
{
    match file {
        Some(file) => file.bytes.as_slice(),
        None => &[],
    }
}

/// The type of a number's file, and 0 where there is none.
pub fn kind_at(files: &[Option<File>], number: u32) -> u16
    ensures { result ≡ kind_of (file_in files.now number) }
{
    kind_of(file_in(files, number as usize))
}

/// The count of links of a number's file, and 0 where there is none.
pub fn links_at(files: &[Option<File>], number: u32) -> u16
    ensures { result ≡ links_of (file_in files.now number) }
{
    links_of(file_in(files, number as usize))
}

/// The bytes of a number's file; none where there is no file.
pub fn bytes_at(files: &[Option<File>], number: u32) -> &[u8]
    ensures { result.now ≡ bytes_of (file_in files.now number) }
{
    bytes_of(file_in(files, number as usize))
}

/// Whether a number's file is a directory.
pub fn is_directory(files: &[Option<File>], number: u32) -> bool
    ensures { IsTrue result ↔ IsDirectory files.now number }
{
    kind_at(files, number) == DIRECTORY_KIND
}
