// Whether colours are wanted.
ghost use Rattle.std.specs.Prelude.{◌≡◌, option_map};
ghost use Rattle.colours.specs.Wanted.{are_wanted};

use std::env::var;
use std::io::IsTerminal;
use std::rt::Env;

/// Whether what goes to this stream is to have colours: a terminal is there, the environment's `TERM` is set
/// and isn't `dumb`, and its `NO_COLOR` is not set or is empty.
pub fn wants_colours<R: Env + AllocGlobal, S: IsTerminal>(rt: &R, stream: &S) -> bool {
    if !stream.is_terminal() {
        return false;
    }
    let term = var(rt, "TERM").ok();
    let no_color = var(rt, "NO_COLOR").ok();
    are_wanted(as_text(&term), as_text(&no_color))
}

// The text of a variable, or none.
fn as_text(value: &Option<String>) -> &str {
    match value {
        Some(text) => text.as_str(),
        None => "",
    }
}

// Whether a terminal whose environment has these is to have colours; what is not set is empty.
fn are_wanted(term: &str, no_color: &str) -> bool
    ensures { result ≡ are_wanted term.now no_color.now }
{
    !term.is_empty() && term != "dumb" && no_color.is_empty()
}
