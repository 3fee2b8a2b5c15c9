// What the words of a command line ask `xvfs` for.
ghost use Rattle.std.specs.Prelude.{◌≡◌, false, true, codes, option_map, IfSome};
ghost use Rattle.clap.specs.Words.{first_of, found_of, is_simple_and_free, rows_of};
ghost use Rattle.cli.specs.Asking.{HasFlag};
ghost use Rattle.cli.specs.Table.{outline_app};
ghost use Rattle.xvfs_words.specs.CommandLine.{AsksBy, HasPart, HasWorkers, IsOfPage, xvfs_app, xvfs_words};
ghost use Rattle.xvfs_words.specs.declared.words.Part.TheVariants as parts;
ghost use Rattle.xvfs_words.specs.declared.words.Request.TheVariants as requests;

use crate::table::XVFS;
use clap::ArgMatches;
use cli::ByWords;
use cli::table::Outline;
use std::alloc::{AllocError, Global};

/// What the words of a command line ask `xvfs` for.
#[derive(Clone, Copy)]
pub enum Request<'a> {
    /// A new image.
    Mkfs {
        /// The path of its file.
        image: &'a str,
        /// Its blocks, of 1024 bytes.
        size: u32,
        /// Its inode numbers, the unused number 0 included.
        ninodes: u32,
        /// Whether it is of the second form, with large files.
        large: bool,
        /// Whether the sync at the end is left out.
        no_sync: bool,
    },
    /// A check of an image.
    Check {
        /// The path of its file.
        image: &'a str,
        /// Whether all faults are told, not the first alone.
        all: bool,
        /// Whether it is told as JSON.
        json: bool,
    },
    /// A recovery of an image.
    Recover {
        /// The path of its file.
        image: &'a str,
        /// Whether the file holds writes back until it is synced.
        sync: bool,
        /// Whether it is told as JSON.
        json: bool,
    },
    /// The bytes of a file of an image.
    Cat {
        /// The path of the image's file.
        image: &'a str,
        /// The file's number.
        inum: u32,
        /// Whether the image is only read, and not recovered.
        read_only: bool,
    },
    /// The files of an image.
    Ls {
        /// The path of the image's file.
        image: &'a str,
        /// Whether they are told as JSON.
        json: bool,
    },
    /// How much of an image is used.
    Df {
        /// The path of the image's file.
        image: &'a str,
        /// Whether it is told as JSON.
        json: bool,
    },
    /// The blocks of an image, or of one of its files.
    Show {
        /// The path of the image's file.
        image: &'a str,
        /// The file's number.
        inum: Option<u32>,
        /// Whether they are told as JSON.
        json: bool,
    },
    /// What the log of an image holds.
    ShowLog {
        /// The path of the image's file.
        image: &'a str,
        /// Whether it is told as JSON.
        json: bool,
    },
    /// The blocks of an image, drawn into a file, too.
    ShowPicture {
        /// The path of the image's file.
        image: &'a str,
        /// The path of the file into which they are drawn.
        picture: &'a str,
    },
    /// A file of the system, put into an image.
    Put {
        /// The path of the image's file.
        image: &'a str,
        /// The path of the file whose bytes are put.
        file: &'a str,
        /// The number of the image's file that gets them; none for a new one.
        inum: Option<u32>,
        /// Whether the image's file holds writes back until it is synced.
        sync: bool,
        /// Whether the sync at the end is left out.
        no_sync: bool,
    },
    /// An image of the first form, copied into a new one of the second.
    Copy {
        /// The path of the image's file.
        old: &'a str,
        /// The path of the file that is made.
        new: &'a str,
        /// The blocks of the new image; none for as many as the old one has.
        size: Option<u32>,
        /// Whether the sync at the end is left out.
        no_sync: bool,
    },
    /// An image whose log has another length, made anew with the log of this format.
    Convert {
        /// The path of the image's file.
        old: &'a str,
        /// The path of the file that is made.
        new: &'a str,
        /// The blocks of the new image's log; none for those of this format.
        log: Option<u32>,
        /// The blocks of the new image; none for as many data blocks as the old one has.
        size: Option<u32>,
        /// Whether the sync at the end is left out.
        no_sync: bool,
    },
    /// The whole files of an image, copied into a new one.
    Rescue {
        /// The path of the image's file.
        old: &'a str,
        /// The path of the file that is made.
        new: &'a str,
        /// Whether the sync at the end is left out.
        no_sync: bool,
    },
    /// A script's operations over an image.
    Replay {
        /// The path of the image's file.
        image: &'a str,
        /// The path of the script.
        script: &'a str,
        /// The path of the schedule.
        schedule: &'a str,
        /// The write, counted from 1 after the opening, before which it stops.
        stop: Option<u64>,
        /// Whether the file holds writes back until it is synced.
        sync: bool,
        /// Whether each write is told.
        writes: bool,
        /// Whether each step is told.
        steps: bool,
        /// The path of the file that gets a page of the run.
        picture: Option<&'a str>,
        /// Whether the run is drawn on it, in place of a page that walks through it; only where there is one.
        plain: bool,
    },
    /// A script's operations over an image, told as JSON.
    ReplayJson {
        /// The path of the image's file.
        image: &'a str,
        /// The path of the script.
        script: &'a str,
        /// The path of the schedule.
        schedule: &'a str,
        /// The write, counted from 1 after the opening, before which it stops.
        stop: Option<u64>,
        /// Whether the file holds writes back until it is synced.
        sync: bool,
    },
    /// A script's operations over an image, by callers and workers on threads.
    Run {
        /// The path of the image's file.
        image: &'a str,
        /// The path of the script.
        script: &'a str,
        /// The threads that make the steps, from 1 to 32.
        workers: u32,
        /// How many answers of a group of the log may wait for its commit, where groups are kept
        /// open for speed.
        group: Option<u32>,
        /// Whether the file holds writes back until it is synced.
        sync: bool,
    },
    /// A check of a script's operations at each of their stops.
    Stops {
        /// The path of the script.
        script: &'a str,
        /// The path of the schedule.
        schedule: &'a str,
        /// Whether the disk holds writes back until it is synced.
        held: bool,
        /// The path of the file of their page.
        picture: Option<&'a str>,
        /// Whether that page is plain.
        plain: bool,
        /// Whether it is told as JSON.
        json: bool,
    },
}

impl<'a> ByWords<'a> for Request<'a> {
    ghost wording = { xvfs_words };

    fn outline() -> Outline
        ensures shape { outline_app result ≡ xvfs_app }
        ensures free { is_simple_and_free xvfs_app ≡ true }
    {
        XVFS
    }

    fn read(
        _alloc: Global,
        name: &str,
        values: &ArgMatches<'a>,
    ) -> Result<Option<Request<'a>>, AllocError> {
        Ok(request_of(name, values))
    }
}

// What a command of this name asks for, if none of its words is missing.
fn request_of<'a>(name: &str, values: &ArgMatches<'a>) -> Option<Request<'a>>
    ensures { IfSome result (AsksBy name.now (rows_of (found_of values.now))) }
{
    match name {
        "stops" => stops_request(values),
        "copy" => copy_request(values),
        "convert" => convert_request(values),
        "rescue" => rescue_request(values),
        "replay" => replay_request(values),
        "mkfs" => mkfs_request(values),
        "put" => put_request(values),
        "show" => show_request(values),
        "run" => run_request(values),
        "cat" => cat_request(values),
        _ => request_over(name, values),
    }
}

fn stops_request<'a>(values: &ArgMatches<'a>) -> Option<Request<'a>>
    ensures { IfSome result (AsksBy (codes "stops") (rows_of (found_of values.now))) }
{
    let page = page_of(values)?;
    Some(Request::Stops {
        script: values.get_str("SCRIPT")?,
        schedule: values.get_str("SCHEDULE")?,
        held: values.get_flag("held"),
        picture: page.0,
        plain: page.1,
        json: values.get_flag("json"),
    })
}

fn copy_request<'a>(values: &ArgMatches<'a>) -> Option<Request<'a>>
    ensures { IfSome result (AsksBy (codes "copy") (rows_of (found_of values.now))) }
{
    Some(Request::Copy {
        old: values.get_str("OLD")?,
        new: values.get_str("NEW")?,
        size: values.get_one("size"),
        no_sync: values.get_flag("no-sync"),
    })
}

fn convert_request<'a>(values: &ArgMatches<'a>) -> Option<Request<'a>>
    ensures { IfSome result (AsksBy (codes "convert") (rows_of (found_of values.now))) }
{
    Some(Request::Convert {
        old: values.get_str("OLD")?,
        new: values.get_str("NEW")?,
        log: values.get_one("log"),
        size: values.get_one("size"),
        no_sync: values.get_flag("no-sync"),
    })
}

fn rescue_request<'a>(values: &ArgMatches<'a>) -> Option<Request<'a>>
    ensures { IfSome result (AsksBy (codes "rescue") (rows_of (found_of values.now))) }
{
    Some(Request::Rescue {
        old: values.get_str("OLD")?,
        new: values.get_str("NEW")?,
        no_sync: values.get_flag("no-sync"),
    })
}

fn replay_request<'a>(values: &ArgMatches<'a>) -> Option<Request<'a>>
    ensures { IfSome result (AsksBy (codes "replay") (rows_of (found_of values.now))) }
{
    if values.get_flag("json") {
        return json_request(values);
    }
    let page = page_of(values)?;
    Some(Request::Replay {
        image: values.get_str("IMAGE")?,
        script: values.get_str("SCRIPT")?,
        schedule: values.get_str("SCHEDULE")?,
        stop: values.get_one("stop"),
        sync: values.get_flag("sync"),
        writes: values.get_flag("writes"),
        steps: values.get_flag("steps"),
        picture: page.0,
        plain: page.1,
    })
}

// The path of a page, if there is one, and whether that is plain: without a page nothing is.
fn page_of<'a>(values: &ArgMatches<'a>) -> Option<(Option<&'a str>, bool)>
    ensures path { IfSome result (λ page. option_map (λ path. path.now) page.0
        ≡ first_of (codes "picture") (rows_of (found_of values.now))) }
    ensures plain { IfSome result (λ page.
        HasFlag (codes "plain") (rows_of (found_of values.now)) page.1) }
    ensures whose { IfSome result (λ page. IsOfPage page.0 page.1) }
{
    match (values.get_str("picture"), values.get_flag("plain")) {
        (Some(path), plain) => Some((Some(path), plain)),
        (None, false) => Some((None, false)),
        (None, true) => None,
    }
}

// A replay that is told as JSON, with all of each step, and has no page.
fn json_request<'a>(values: &ArgMatches<'a>) -> Option<Request<'a>>
    requires { HasFlag (codes "json") (rows_of (found_of values.now)) true }
    ensures { IfSome result (AsksBy (codes "replay") (rows_of (found_of values.now))) }
{
    let writes = values.get_flag("writes");
    let steps = values.get_flag("steps");
    let plain = values.get_flag("plain");
    match (writes, steps, plain, values.get_str("picture")) {
        (false, false, false, None) => Some(Request::ReplayJson {
            image: values.get_str("IMAGE")?,
            script: values.get_str("SCRIPT")?,
            schedule: values.get_str("SCHEDULE")?,
            stop: values.get_one("stop"),
            sync: values.get_flag("sync"),
        }),
        _ => None,
    }
}

fn mkfs_request<'a>(values: &ArgMatches<'a>) -> Option<Request<'a>>
    ensures { IfSome result (AsksBy (codes "mkfs") (rows_of (found_of values.now))) }
{
    Some(Request::Mkfs {
        image: values.get_str("IMAGE")?,
        size: values.get_one("SIZE")?,
        ninodes: values.get_one("NINODES")?,
        large: values.get_flag("large"),
        no_sync: values.get_flag("no-sync"),
    })
}

fn put_request<'a>(values: &ArgMatches<'a>) -> Option<Request<'a>>
    ensures { IfSome result (AsksBy (codes "put") (rows_of (found_of values.now))) }
{
    let image = values.get_str("IMAGE")?;
    Some(Request::Put {
        image,
        file: values.get_str("FILE")?,
        inum: values.get_one("INUM"),
        sync: values.get_flag("sync"),
        no_sync: values.get_flag("no-sync"),
    })
}

fn run_request<'a>(values: &ArgMatches<'a>) -> Option<Request<'a>>
    ensures { IfSome result (AsksBy (codes "run") (rows_of (found_of values.now))) }
{
    Some(Request::Run {
        image: values.get_str("IMAGE")?,
        script: values.get_str("SCRIPT")?,
        workers: workers_of(values),
        group: values.get_one("group"),
        sync: values.get_flag("sync"),
    })
}

fn cat_request<'a>(values: &ArgMatches<'a>) -> Option<Request<'a>>
    ensures { IfSome result (AsksBy (codes "cat") (rows_of (found_of values.now))) }
{
    Some(Request::Cat {
        image: values.get_str("IMAGE")?,
        inum: values.get_one("INUM")?,
        read_only: values.get_flag("read-only"),
    })
}

// What the words of another command over an image ask for.
fn request_over<'a>(name: &str, values: &ArgMatches<'a>) -> Option<Request<'a>>
    ensures { IfSome result (AsksBy name.now (rows_of (found_of values.now))) }
{
    let image = values.get_str("IMAGE")?;
    let json = values.get_flag("json");
    match name {
        "check" => Some(Request::Check {
            image,
            all: values.get_flag("all"),
            json,
        }),
        "recover" => Some(Request::Recover {
            image,
            sync: values.get_flag("sync"),
            json,
        }),
        "ls" => Some(Request::Ls { image, json }),
        "df" => Some(Request::Df { image, json }),
        _ => None,
    }
}

fn show_request<'a>(values: &ArgMatches<'a>) -> Option<Request<'a>>
    ensures { IfSome result (AsksBy (codes "show") (rows_of (found_of values.now))) }
{
    let image = values.get_str("IMAGE")?;
    let part = part_of(values.get_str("INUM"))?;
    let json = values.get_flag("json");
    if let Some(picture) = values.get_str("picture") {
        return drawn(image, part, json, picture);
    }
    match part {
        Part::Whole => Some(Request::Show {
            image,
            inum: None,
            json,
        }),
        Part::File(number) => Some(Request::Show {
            image,
            inum: Some(number),
            json,
        }),
        Part::Log => Some(Request::ShowLog { image, json }),
    }
}

// A picture that has a part of an image, told as JSON or as text: there is one of the whole alone,
// beside text.
fn drawn<'a>(image: &'a str, part: Part, json: bool, picture: &'a str) -> Option<Request<'a>>
    ensures { IfSome result (λ asked. (part ≡ parts.Whole) × (json ≡ false)
        × (asked ≡ requests.ShowPicture image.entry picture.entry)) }
{
    match (part, json) {
        (Part::Whole, false) => Some(Request::ShowPicture { image, picture }),
        _ => None,
    }
}

// The part of an image whose blocks are asked for.
#[derive(Clone, Copy)]
enum Part {
    Whole,
    // The file of a number.
    File(u32),
    Log,
}

// Which part of an image a word asks for. None where it is neither `log` nor a number.
fn part_of(word: Option<&str>) -> Option<Part>
    ensures { IfSome result (HasPart (option_map (λ word. word.now) word.entry)) }
{
    match word {
        None => Some(Part::Whole),
        Some("log") => Some(Part::Log),
        Some(number) => match number.parse::<u32>() {
            Ok(number) => Some(Part::File(number)),
            Err(_) => None,
        },
    }
}

// How many workers the words ask for. Clap has refused what is out of bounds.
fn workers_of(values: &ArgMatches<'_>) -> u32
    ensures { HasWorkers (rows_of (found_of values.now)) result }
{
    match values.get_one::<u32>("workers") {
        Some(workers) => workers.clamp(1, 32),
        None => 1,
    }
}
