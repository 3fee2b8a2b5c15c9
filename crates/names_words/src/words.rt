// What the words of a command line ask `xvnames` for.
ghost use Rattle.std.specs.Prelude.{◌≡◌, true, codes, map, IfOk, IfSome};
ghost use Rattle.clap.specs.Words.{found_of, is_simple_and_free, rows_of};
ghost use Rattle.cli.specs.Table.{outline_app};
ghost use Rattle.names_words.specs.CommandLine.{AsksBy, files_in, xvnames_app, xvnames_words};

use crate::table::XVNAMES;
use clap::ArgMatches;
use cli::ByWords;
use cli::table::Outline;
use std::alloc::{AllocError, Global};

/// What the words of a command line ask `xvnames` for.
#[derive(Drop)]
pub enum Request<'a> {
    /// The entries of a directory.
    Ls {
        /// The path of the image's file.
        image: &'a str,
        /// The directory's path.
        path: &'a str,
        /// Whether they are told as JSON.
        json: bool,
    },
    /// A file's number, type, bytes and count of links.
    Stat {
        /// The path of the image's file.
        image: &'a str,
        /// The file's path.
        path: &'a str,
        /// Whether it is told as JSON.
        json: bool,
    },
    /// The paths below a directory.
    Tree {
        /// The path of the image's file.
        image: &'a str,
        /// The directory's path.
        path: &'a str,
        /// Whether they are told as JSON.
        json: bool,
    },
    /// The bytes of a file.
    Cat {
        /// The path of the image's file.
        image: &'a str,
        /// The file's path.
        path: &'a str,
    },
    /// A file, or a directory with all below it, copied into a new file or folder of the system.
    Get {
        /// The path of the image's file.
        image: &'a str,
        /// The file's path in the image.
        path: &'a str,
        /// The path of what is made.
        file: &'a str,
        /// Whether it is a directory, with all below it.
        all: bool,
    },
    /// A file of the system, put into an image.
    Put {
        /// The path of the image's file.
        image: &'a str,
        /// The path of the file whose bytes are put.
        file: &'a str,
        /// The path under which they are put.
        path: &'a str,
        /// Whether the image's file holds writes back until it is synced.
        sync: bool,
        /// Whether the sync at the end is left out.
        no_sync: bool,
    },
    /// All that is below a folder of the system, put into a directory of an image.
    PutFolder {
        /// The path of the image's file.
        image: &'a str,
        /// The path of the folder.
        folder: &'a str,
        /// The path of the directory.
        path: &'a str,
    },
    /// A file, or a directory with all below it, removed.
    Rm {
        /// The path of the image's file.
        image: &'a str,
        /// The file's path.
        path: &'a str,
        /// Whether it may be a directory, with all below it.
        all: bool,
        /// Whether the image's file holds writes back until it is synced.
        sync: bool,
        /// Whether the sync at the end is left out.
        no_sync: bool,
    },
    /// Another path for a file.
    Mv {
        /// The path of the image's file.
        image: &'a str,
        /// The path that it has.
        from: &'a str,
        /// The path that it gets.
        to: &'a str,
        /// Whether the image's file holds writes back until it is synced.
        sync: bool,
        /// Whether the sync at the end is left out.
        no_sync: bool,
    },
    /// A copy of a file within an image.
    Cp {
        /// The path of the image's file.
        image: &'a str,
        /// The file's path in the image.
        from: &'a str,
        /// The path of the copy, or of a directory that it goes into.
        to: &'a str,
        /// Whether the image's file holds writes back until it is synced.
        sync: bool,
        /// Whether the sync at the end is left out.
        no_sync: bool,
    },
    /// A second name for a file.
    Ln {
        /// The path of the image's file.
        image: &'a str,
        /// The path that it has.
        path: &'a str,
        /// The path that it gets besides.
        into: &'a str,
        /// Whether the image's file holds writes back until it is synced.
        sync: bool,
        /// Whether the sync at the end is left out.
        no_sync: bool,
    },
    /// A new directory.
    Mkdir {
        /// The path of the image's file.
        image: &'a str,
        /// The directory's path.
        path: &'a str,
        /// Whether each directory of the path is made that isn't there.
        parents: bool,
        /// Whether the image's file holds writes back until it is synced.
        sync: bool,
        /// Whether the sync at the end is left out.
        no_sync: bool,
    },
    /// An empty directory, removed.
    Rmdir {
        /// The path of the image's file.
        image: &'a str,
        /// The directory's path.
        path: &'a str,
        /// Whether the image's file holds writes back until it is synced.
        sync: bool,
        /// Whether the sync at the end is left out.
        no_sync: bool,
    },
    /// The files' wrong counts of links.
    Check {
        /// The path of the image's file.
        image: &'a str,
        /// Whether they are told as JSON.
        json: bool,
    },
    /// The files' counts of links, put right.
    Recount {
        /// The path of the image's file.
        image: &'a str,
        /// Whether the image's file holds writes back until it is synced.
        sync: bool,
        /// Whether the sync at the end is left out.
        no_sync: bool,
    },
    /// A new image with a root directory.
    Mkfs {
        /// The path of its file.
        image: &'a str,
        /// Its blocks, of 1024 bytes.
        size: u32,
        /// Its inode numbers, the unused number 0 included.
        ninodes: u32,
        /// The paths of the files that it is made with.
        files: Vec<&'a str>,
        /// Whether the sync at the end is left out.
        no_sync: bool,
    },
}

impl<'a> ByWords<'a> for Request<'a> {
    ghost wording = { xvnames_words };

    fn outline() -> Outline
        ensures shape { outline_app result ≡ xvnames_app }
        ensures free { is_simple_and_free xvnames_app ≡ true }
    {
        XVNAMES
    }

    fn read(
        alloc: Global,
        name: &str,
        values: &ArgMatches<'a>,
    ) -> Result<Option<Request<'a>>, AllocError> {
        match name {
            "mkfs" => mkfs_request(alloc, values),
            _ => Ok(request_of(name, values)),
        }
    }
}

fn mkfs_request<'a>(
    alloc: Global,
    values: &ArgMatches<'a>,
) -> Result<Option<Request<'a>>, AllocError>
    ensures { IfOk result
        (λ read. IfSome read (AsksBy (codes "mkfs") (rows_of (found_of values.now)))) }
{
    let files = files_in(alloc, values)?;
    Ok(made_with(files, values))
}

// An image that is made with these files.
fn made_with<'a>(files: Vec<&'a str>, values: &ArgMatches<'a>) -> Option<Request<'a>>
    requires { map (λ file. file.now) files.items ≡ files_in (rows_of (found_of values.now)) }
    ensures { IfSome result (AsksBy (codes "mkfs") (rows_of (found_of values.now))) }
{
    Some(Request::Mkfs {
        image: values.get_str("IMAGE")?,
        size: values.get_one("SIZE")?,
        ninodes: values.get_one("NINODES")?,
        files,
        no_sync: values.get_flag("no-sync"),
    })
}

// The files that are given.
fn files_in<'a>(alloc: Global, values: &ArgMatches<'a>) -> Result<Vec<&'a str>, AllocError>
    ensures { IfOk result (λ files. map (λ file. file.now) files.items
        ≡ files_in (rows_of (found_of values.now))) }
{
    match values.get_strs("FILE") {
        Some(files) => Vec::from_slice(alloc, files),
        None => Ok(Vec::new(alloc)),
    }
}

// What another command of this name asks for, if none of its words is missing.
fn request_of<'a>(name: &str, values: &ArgMatches<'a>) -> Option<Request<'a>>
    ensures { IfSome result (AsksBy name.now (rows_of (found_of values.now))) }
{
    match name {
        "put" => put_request(values),
        "get" => get_request(values),
        "mv" => mv_request(values),
        "cp" => cp_request(values),
        "ln" => ln_request(values),
        "check" => check_request(values),
        "recount" => recount_request(values),
        "rm" => rm_request(values),
        "mkdir" => mkdir_request(values),
        "rmdir" => rmdir_request(values),
        "cat" => cat_request(values),
        "stat" => stat_request(values),
        _ => look_request(name, values),
    }
}

fn put_request<'a>(values: &ArgMatches<'a>) -> Option<Request<'a>>
    ensures { IfSome result (AsksBy (codes "put") (rows_of (found_of values.now))) }
{
    let image = values.get_str("IMAGE")?;
    let file = values.get_str("FILE")?;
    let path = values.get_str("PATH")?;
    let whole = values.get_flag("all");
    if whole {
        let folder = file;
        return Some(Request::PutFolder {
            image,
            folder,
            path,
        });
    }
    Some(Request::Put {
        image,
        file,
        path,
        sync: values.get_flag("sync"),
        no_sync: values.get_flag("no-sync"),
    })
}

fn get_request<'a>(values: &ArgMatches<'a>) -> Option<Request<'a>>
    ensures { IfSome result (AsksBy (codes "get") (rows_of (found_of values.now))) }
{
    Some(Request::Get {
        image: values.get_str("IMAGE")?,
        path: values.get_str("PATH")?,
        file: values.get_str("FILE")?,
        all: values.get_flag("all"),
    })
}

fn mv_request<'a>(values: &ArgMatches<'a>) -> Option<Request<'a>>
    ensures { IfSome result (AsksBy (codes "mv") (rows_of (found_of values.now))) }
{
    Some(Request::Mv {
        image: values.get_str("IMAGE")?,
        from: values.get_str("FROM")?,
        to: values.get_str("TO")?,
        sync: values.get_flag("sync"),
        no_sync: values.get_flag("no-sync"),
    })
}

fn cp_request<'a>(values: &ArgMatches<'a>) -> Option<Request<'a>>
    ensures { IfSome result (AsksBy (codes "cp") (rows_of (found_of values.now))) }
{
    let from = values.get_str("FROM")?;
    Some(Request::Cp {
        image: values.get_str("IMAGE")?,
        from,
        to: values.get_str("TO")?,
        sync: values.get_flag("sync"),
        no_sync: values.get_flag("no-sync"),
    })
}

fn ln_request<'a>(values: &ArgMatches<'a>) -> Option<Request<'a>>
    ensures { IfSome result (AsksBy (codes "ln") (rows_of (found_of values.now))) }
{
    Some(Request::Ln {
        image: values.get_str("IMAGE")?,
        path: values.get_str("OLD")?,
        into: values.get_str("NEW")?,
        sync: values.get_flag("sync"),
        no_sync: values.get_flag("no-sync"),
    })
}

fn check_request<'a>(values: &ArgMatches<'a>) -> Option<Request<'a>>
    ensures { IfSome result (AsksBy (codes "check") (rows_of (found_of values.now))) }
{
    Some(Request::Check {
        image: values.get_str("IMAGE")?,
        json: values.get_flag("json"),
    })
}

fn recount_request<'a>(values: &ArgMatches<'a>) -> Option<Request<'a>>
    ensures { IfSome result (AsksBy (codes "recount") (rows_of (found_of values.now))) }
{
    Some(Request::Recount {
        image: values.get_str("IMAGE")?,
        sync: values.get_flag("sync"),
        no_sync: values.get_flag("no-sync"),
    })
}

fn rm_request<'a>(values: &ArgMatches<'a>) -> Option<Request<'a>>
    ensures { IfSome result (AsksBy (codes "rm") (rows_of (found_of values.now))) }
{
    let all = values.get_flag("all");
    Some(Request::Rm {
        image: values.get_str("IMAGE")?,
        path: values.get_str("PATH")?,
        all,
        sync: values.get_flag("sync"),
        no_sync: values.get_flag("no-sync"),
    })
}

fn mkdir_request<'a>(values: &ArgMatches<'a>) -> Option<Request<'a>>
    ensures { IfSome result (AsksBy (codes "mkdir") (rows_of (found_of values.now))) }
{
    Some(Request::Mkdir {
        image: values.get_str("IMAGE")?,
        path: values.get_str("PATH")?,
        parents: values.get_flag("parents"),
        sync: values.get_flag("sync"),
        no_sync: values.get_flag("no-sync"),
    })
}

fn rmdir_request<'a>(values: &ArgMatches<'a>) -> Option<Request<'a>>
    ensures { IfSome result (AsksBy (codes "rmdir") (rows_of (found_of values.now))) }
{
    Some(Request::Rmdir {
        image: values.get_str("IMAGE")?,
        path: values.get_str("PATH")?,
        sync: values.get_flag("sync"),
        no_sync: values.get_flag("no-sync"),
    })
}

fn cat_request<'a>(values: &ArgMatches<'a>) -> Option<Request<'a>>
    ensures { IfSome result (AsksBy (codes "cat") (rows_of (found_of values.now))) }
{
    Some(Request::Cat {
        image: values.get_str("IMAGE")?,
        path: values.get_str("PATH")?,
    })
}

fn stat_request<'a>(values: &ArgMatches<'a>) -> Option<Request<'a>>
    ensures { IfSome result (AsksBy (codes "stat") (rows_of (found_of values.now))) }
{
    Some(Request::Stat {
        image: values.get_str("IMAGE")?,
        path: values.get_str("PATH")?,
        json: values.get_flag("json"),
    })
}

fn look_request<'a>(name: &str, values: &ArgMatches<'a>) -> Option<Request<'a>>
    ensures { IfSome result (AsksBy name.now (rows_of (found_of values.now))) }
{
    let image = values.get_str("IMAGE")?;
    let path = values.get_str("PATH").unwrap_or("/");
    let json = values.get_flag("json");
    match name {
        "ls" => Some(Request::Ls { image, path, json }),
        "tree" => Some(Request::Tree { image, path, json }),
        _ => None,
    }
}
