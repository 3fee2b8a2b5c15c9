// What more is said of a refusal.
use names_words::Request;
use second_lines::{Given, asks_more};
use std::io::{IsTerminal, Stderr};

/// Where it is seen whether more is said of each refusal, in a second line.
pub trait Screen {
    /// Whether a terminal is at the standard error, or the environment asks for that.
    fn shows_errors(&self) -> bool;
}

impl Screen for HostRuntime {
    fn shows_errors(&self) -> bool {
        let screen: Stderr = self.stderr();
        screen.is_terminal() || asks_more(self)
    }
}

/// The paths of a request, and what else a refusal may be about.
pub fn given<'a>(request: &Request<'a>) -> Given<'a> {
    match *request {
        Request::Ls { image, path, .. } => at(image, path, false),
        Request::Stat { image, path, .. } => at(image, path, false),
        Request::Tree { image, path, .. } => at(image, path, false),
        Request::Cat { image, path } => at(image, path, false),
        Request::Get {
            image,
            path,
            file,
            ..
        } => Given {
            made: Some(file),
            got: Some(file),
            ..at(image, path, false)
        },
        Request::Put {
            image,
            file,
            path,
            ..
        } => Given {
            file: Some(file),
            ..at(image, path, true)
        },
        Request::PutFolder { image, path, .. } => at(image, path, true),
        Request::Rm { image, path, .. } => at(image, path, true),
        Request::Mv {
            image,
            from,
            to,
            ..
        } => between(image, from, to),
        Request::Cp {
            image,
            from,
            to,
            ..
        } => between(image, from, to),
        Request::Ln {
            image,
            path,
            into,
            ..
        } => between(image, path, into),
        Request::Mkdir { image, path, .. } => at(image, path, true),
        Request::Rmdir { image, path, .. } => at(image, path, true),
        Request::Check { image, .. } => Given::over(image, false),
        Request::Recount { image, .. } => Given::over(image, true),
        Request::Mkfs {
            image,
            size,
            ninodes,
            ..
        } => Given {
            name: Some(image),
            ..Given::making(image, size, ninodes)
        },
    }
}

// What a command was given that gives a file of the image, or a copy of it, another path.
fn between<'a>(image: &'a str, path: &'a str, into: &'a str) -> Given<'a> {
    Given {
        into: Some(into),
        ..at(image, path, true)
    }
}

// What a command was given over a file of the image at a path.
fn at<'a>(image: &'a str, path: &'a str, changes: bool) -> Given<'a> {
    Given {
        name: Some(path),
        ..Given::over(image, changes)
    }
}
