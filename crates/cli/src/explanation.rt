// What is told of words that ask for no command.
ghost use Rattle.std.specs.Prelude.{Some};
ghost use Rattle.clap.specs.Words.{kind_of};
ghost use Rattle.cli.specs.Told.{IsLaidOut, IsOfKind, explanation_text};

use crate::wrapping::wrapped;
use clap::Error;
use clap::error::ErrorKind;
use std::alloc::Global;
use std::fmt;

/// What is told of words that ask for no command. It is printed with its line feed.
#[derive(Debug, Drop)]
pub enum Explanation {
    /// The text of help or of the version, which the words ask for.
    Help(String),
    /// What is wrong with the words.
    Mistake(String),
    /// Memory for reading the words, or for the text, was refused.
    NoMemory,
}

impl Explanation {
    /// What clap tells of words.
    pub fn of(alloc: Global, error: Error) -> Explanation
        ensures { IsOfKind (kind_of error) result }
    {
        let Ok(text) = format!(in alloc; "{error}") else {
            return Explanation::NoMemory;
        };
        match error.kind() {
            ErrorKind::DisplayHelp => Explanation::help(alloc, text.as_str()),
            ErrorKind::DisplayVersion => Explanation::Help(text),
            ErrorKind::OutOfMemory => Explanation::NoMemory,
            _ => Explanation::Mistake(text),
        }
    }
}

impl Explanation {
    // The text of help, in lines that are not too wide.
    fn help(alloc: Global, text: &str) -> Explanation
        ensures { IsLaidOut text.now result }
    {
        match wrapped(alloc, text) {
            Some(laid) => Explanation::Help(laid),
            None => Explanation::NoMemory,
        }
    }
}

impl fmt::Display for Explanation {
    ghost output = { λ e. Some (explanation_text e) };

    fn fmt<W: fmt::Write>(&self, f: &mut fmt::Formatter<W>) -> fmt::Result {
        match self {
            Explanation::Help(text) => f.write_str(text.as_str()),
            Explanation::Mistake(text) => f.write_str(text.as_str()),
            Explanation::NoMemory => f.write_str("error: out of memory\n"),
        }
    }
}

impl std::error::Error for Explanation {}
