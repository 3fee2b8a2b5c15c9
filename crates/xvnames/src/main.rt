//! Lists, reads, puts, moves and removes the files of images of the xv6 file system by their paths.
#![tactic(auto)]

mod batch;
mod command;
mod making;
mod refused;
mod telling;

use batch::commands;
use colours::{Painted, Style, wants_colours};
use command::{NAME, command};
use commands::{end_unbegun, greet, take_number, words_and_output};
use std::process::ExitCode;

fn main(rt: HostRuntime) -> ExitCode {
    // The numbers of the standard streams are taken where they are free, so that no file of an image
    // gets one of them.
    let _streams = (take_number(&rt), take_number(&rt), take_number(&rt));
    let mut plain = rt.stderr();
    let style = if wants_colours(&rt, &plain) {
        Style::Head
    } else {
        Style::Plain
    };
    let mut err = Painted::new(rt.stderr(), style);
    let status = match words_and_output(&rt) {
        Err(unbegun) => end_unbegun(NAME, unbegun, &mut err),
        Ok((words, mut out)) => {
            if words.is_empty() {
                let input = rt.stdin();
                greet(NAME, &input, &mut plain);
                commands(&rt, input, &mut out, &mut err)
            } else {
                command(&rt, words.as_slice(), &mut out, &mut err)
            }
        }
    };
    ExitCode::from(status)
}
