// What the words of a command line ask a program for.
ghost use Rattle.std.specs.Prelude.{◌≡◌, true, codes, map, IfErr, IfOk, IfSome};
ghost use Rattle.clap.specs.Words.{found_of, is_simple_and_free, rows_of, subcommand_rows_of};
ghost use Rattle.cli.specs.Asking.{Asks, Gives, IsAsked, IsMistakeIn, Wording};
ghost use Rattle.cli.specs.CommandLine.{HasApp};
ghost use Rattle.cli.specs.Table.{outline_app};
ghost use Rattle.cli.specs.Told.{IsToldOf};

use crate::explanation::Explanation;
use crate::program::program_of;
use crate::table::Outline;
use crate::tips::with_tip;
use clap::error::ErrorKind;
use clap::{ArgMatches, Command, Error};
use std::alloc::{AllocError, Global};
use std::convert::AsStr;

/// What words may ask a program for.
pub trait ByWords<'a>: Drop {
    /// The program's command line, and what a command of it asks for.
    ghost wording: { Wording Self };

    /// The program's commands, as a table. Their words are such as clap's definitions read.
    fn outline() -> Outline
        ensures shape { outline_app result ≡ wording.app }
        ensures free { is_simple_and_free wording.app ≡ true };

    /// What a command of this name, with these values, asks for, if none of its words is missing.
    ///
    /// # Errors
    ///
    /// `AllocError` where memory is refused.
    fn read(alloc: Global, name: &str, values: &ArgMatches<'a>) -> Result<Option<Self>, AllocError>
        ensures { IfOk result
            (λ read. IfSome read (wording.asks_by name.now (rows_of (found_of values.now)))) };
}

/// What the words of a command line ask for, and how.
#[derive(Clone, Copy, Drop)]
pub struct Asked<Q> {
    /// What they ask for.
    pub request: Q,
    /// Whether it waits while another program has the image.
    pub wait: bool,
    /// Whether more is said of a refusal.
    pub explain: bool,
    /// Whether it takes no lock of the image.
    pub no_lock: bool,
}

/// What these words, without the program's name, ask a program for.
///
/// # Errors
///
/// What is told in its place: a mistake in the words, the text of help or of the version, or that
/// memory was refused. How words are read is clap's definition, at the program's command line.
pub fn parse<'a, Q: ByWords<'a>, S: AsStr>(
    alloc: Global,
    words: &'a [S],
) -> Result<Asked<Q>, Explanation>
    ensures ok { IfOk result (IsAsked Q.wording (map S.text words.entry.now)) }
    ensures err { IfErr result (IsToldOf Q.wording (map S.text words.entry.now)) }
{
    match read(alloc, words) {
        Ok(asked) => Ok(asked),
        Err(error) => {
            let told = Explanation::of(alloc, error);
            Err(with_tip(alloc, Q::outline(), words, told))
        }
    }
}

// What the words ask for, or clap's error.
fn read<'a, Q: ByWords<'a>, S: AsStr>(alloc: Global, words: &'a [S]) -> Result<Asked<Q>, Error>
    ensures ok { IfOk result (IsAsked Q.wording (map S.text words.entry.now)) }
    ensures err { IfErr result (IsMistakeIn Q.wording (map S.text words.entry.now)) }
{
    let mut program = program_of(alloc, Q::outline())?;
    read_by(alloc, &mut program, words)
}

// What the words ask this program for, or clap's error.
fn read_by<'a, Q: ByWords<'a>, S: AsStr>(
    alloc: Global,
    program: &mut Command<'a>,
    words: &'a [S],
) -> Result<Asked<Q>, Error>
    requires app { HasApp Q.wording.app program.old }
    requires free { is_simple_and_free Q.wording.app ≡ true }
    ensures ok { IfOk result (IsAsked Q.wording (map S.text words.entry.now)) }
    ensures err { IfErr result (IsMistakeIn Q.wording (map S.text words.entry.now)) }
{
    let matches = program.try_get_matches_from_mut(words)?;
    match asked_of(alloc, &matches)? {
        Some(asked) => Ok(asked),
        None => Err(program.error(
            ErrorKind::MissingSubcommand,
            "a word is missing, or is none that can stand there",
        )?),
    }
}

// What the command that was met asks for, and how, if there is one and none of its words is missing.
fn asked_of<'a, Q: ByWords<'a>>(
    alloc: Global,
    matches: &ArgMatches<'a>,
) -> Result<Option<Asked<Q>>, AllocError>
    ensures asks { IfOk result (λ read. IfSome read
        (λ asked. Asks Q.wording (subcommand_rows_of matches.now) asked.request)) }
    ensures waits { IfOk result (λ read. IfSome read
        (λ asked. Gives (codes "wait") (subcommand_rows_of matches.now) asked.wait)) }
    ensures explains { IfOk result (λ read. IfSome read
        (λ asked. Gives (codes "explain") (subcommand_rows_of matches.now) asked.explain)) }
    ensures unlocked { IfOk result (λ read. IfSome read
        (λ asked. Gives (codes "no-lock") (subcommand_rows_of matches.now) asked.no_lock)) }
{
    let Some((name, values)) = matches.subcommand() else {
        return Ok(None);
    };
    let Some(request) = Q::read(alloc, name, values)? else {
        return Ok(None);
    };
    Ok(Some(Asked {
        request,
        wait: values.get_flag("wait"),
        explain: values.get_flag("explain"),
        no_lock: values.get_flag("no-lock"),
    }))
}
