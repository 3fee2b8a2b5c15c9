// What of a command's output has colours.
ghost use Rattle.std.specs.Prelude.{◌≡◌, map};
ghost use Rattle.std.specs.List.{list_all};
ghost use Rattle.xvfs.specs.Colouring.{draws, is_silent};

use colours::{Place, Style, wants_colours};
use std::convert::AsStr;

/// How the output of the command of these words is coloured: on a terminal the signs that `show` draws are.
pub fn style_of<S: AsStr>(rt: &HostRuntime, words: &[S]) -> Style {
    if draws(words) && wants_colours(rt, &rt.stdout()) {
        Style::Signs(Place::Row(0))
    } else {
        Style::Plain
    }
}

// Whether the words ask for a whole image drawn by signs, and for nothing else.
fn draws<S: AsStr>(words: &[S]) -> bool
    ensures { result ≡ draws (map S.text words.now) }
{
    match words {
        [show, image, rest @ ..] => {
            show.as_str() == "show" && !image.as_str().starts_with('-') && are_silent(rest)
        }
        _ => false,
    }
}

// Whether these are options that change nothing of what is printed.
fn are_silent<S: AsStr>(words: &[S]) -> bool
    ensures { result ≡ list_all is_silent (map S.text words.now) }
{
    match words {
        [] => true,
        [word, rest @ ..] => is_silent(word.as_str()) && are_silent(rest),
    }
}

// Whether it is an option that changes nothing of what is printed.
fn is_silent(word: &str) -> bool
    ensures { result ≡ is_silent word.now }
{
    word == "--wait" || word == "--explain" || word == "--no-lock"
}
