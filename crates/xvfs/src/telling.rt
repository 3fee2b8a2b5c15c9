// What more is said of a refusal.
use crate::progress::Screen;
use second_lines::Given;
use std::io::IsTerminal;
use xvfs_words::Request;

/// Whether more is said of a refusal, in a second line: where that is asked for, also by the
/// environment, or a terminal is at the standard error.
pub fn says_more<R: Screen>(rt: &R, asked: bool) -> bool {
    asked || rt.asks_more() || rt.screen().is_terminal()
}

/// The paths of a request, and what else a refusal may be about.
pub fn given<'a>(request: &Request<'a>) -> Given<'a> {
    match *request {
        Request::Mkfs {
            image,
            size,
            ninodes,
            ..
        } => Given::making(image, size, ninodes),
        Request::Check { image, .. } => Given::over(image, false),
        Request::Recover { image, .. } => Given::over(image, true),
        Request::Cat { image, inum, .. } => Given {
            inum: Some(inum),
            ..Given::over(image, false)
        },
        Request::Ls { image, .. } => Given::over(image, false),
        Request::Df { image, .. } => Given::over(image, false),
        Request::ShowLog { image, .. } => Given::over(image, false),
        Request::ShowPicture { image, picture } => Given {
            made: Some(picture),
            ..Given::over(image, false)
        },
        Request::Show { image, inum, .. } => Given {
            inum,
            ..Given::over(image, false)
        },
        Request::Put {
            image,
            file,
            inum,
            ..
        } => Given {
            file: Some(file),
            inum,
            ..Given::over(image, true)
        },
        Request::Copy { old, new, size, .. } => Given {
            made: Some(new),
            size,
            ..Given::over(old, false)
        },
        Request::Convert { old, new, size, .. } => Given {
            converts: true,
            made: Some(new),
            size,
            ..Given::over(old, false)
        },
        Request::Rescue { old, new, .. } => Given {
            made: Some(new),
            ..Given::over(old, false)
        },
        Request::Replay {
            image,
            script,
            schedule,
            picture,
            ..
        } => played(Given::over(image, true), script, schedule, picture),
        Request::ReplayJson {
            image,
            script,
            schedule,
            ..
        } => played(Given::over(image, true), script, schedule, None),
        Request::Run { image, script, .. } => Given {
            script: Some(script),
            ..Given::over(image, true)
        },
        Request::Stops {
            script,
            schedule,
            picture,
            ..
        } => played(Given::nothing(), script, schedule, picture),
    }
}

// What a command was given that plays a script, and maybe draws it.
fn played<'a>(
    given: Given<'a>,
    script: &'a str,
    schedule: &'a str,
    picture: Option<&'a str>,
) -> Given<'a> {
    Given {
        made: picture,
        script: Some(script),
        schedule: Some(schedule),
        ..given
    }
}
