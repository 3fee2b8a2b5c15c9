// The options of a mount.
use cmd::Locking;
use std::num::ParseIntError;
use thiserror::Error;

/// How an image is served.
#[derive(Clone, Copy)]
pub struct Options {
    /// The file is only read.
    pub read_only: bool,
    /// The file is taken to hold writes back, and is synced in each commit.
    pub sync: bool,
    /// How its lock is taken.
    pub locking: Locking,
    /// The number of the user whose all files are.
    pub owner: u32,
    /// The number of the group whose all files are.
    pub group: u32,
    /// By bits what no one may do with any file.
    pub mask: u32,
}

/// Why words are no options.
#[derive(Clone, Copy, Debug, PartialEq, Eq, Error)]
pub enum OptionFault {
    #[error("an option is none of ro, rw, sync, wait, nolock, uid=, gid= and umask=")]
    Unknown,
    #[error("uid= and gid= want a number, and umask= digits below 8, at most 777")]
    NoNumber,
}

impl From<ParseIntError> for OptionFault {
    fn from(_cause: ParseIntError) -> OptionFault {
        OptionFault::NoNumber
    }
}

/// The options of a text, with commas between; none is given twice with another meaning than its
/// last.
///
/// # Errors
///
/// `Unknown`, or `NoNumber`: of the first one that is wrong.
pub fn read_options(text: &str) -> Result<Options, OptionFault> {
    let mut options = Options {
        read_only: false,
        sync: false,
        locking: Locking::AtOnce,
        owner: 0,
        group: 0,
        mask: 0,
    };
    for option in text.split(',') {
        take(&mut options, option)?;
    }
    Ok(options)
}

// Takes one option.
fn take(options: &mut Options, option: &str) -> Result<(), OptionFault> {
    match option {
        "" | "rw" => {}
        "ro" => options.read_only = true,
        "sync" => options.sync = true,
        "wait" => options.locking = Locking::Wait,
        "nolock" => options.locking = Locking::Never,
        option => return take_number(options, option),
    }
    Ok(())
}

// Takes one with a number.
fn take_number(options: &mut Options, option: &str) -> Result<(), OptionFault> {
    let Some((name, digits)) = option.split_once('=') else {
        return Err(OptionFault::Unknown);
    };
    match name {
        "uid" => options.owner = digits.parse()?,
        "gid" => options.group = digits.parse()?,
        "umask" => options.mask = mask_of(digits)?,
        _ => return Err(OptionFault::Unknown),
    }
    Ok(())
}

// A mask by its digits.
fn mask_of(digits: &str) -> Result<u32, OptionFault> {
    let mask = u32::from_str_radix(digits, 8)?;
    if mask > 0o777 {
        return Err(OptionFault::NoNumber);
    }
    Ok(mask)
}
