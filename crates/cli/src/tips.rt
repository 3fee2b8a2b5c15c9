// The name nearest to one of which help has nothing to tell.
ghost use Rattle.std.specs.Prelude.{◌≡◌, Contains, IfOk, IfSome, map, option_map, string_bytes};
ghost use Rattle.cli.specs.Tips.{IsNearest, IsToldWith, MayHaveTip, told_names};

use crate::explanation::Explanation;
use crate::table::Outline;
use std::alloc::{AllocError, Global};
use std::convert::AsStr;
use strsim::levenshtein;

/// What is told of words, and where they ask a program's help to tell of a name that it hasn't, the name
/// of its commands and topics that is nearest, if one is near.
pub(crate) fn with_tip<S: AsStr>(
    alloc: Global,
    outline: Outline,
    words: &[S],
    told: Explanation,
) -> Explanation
    ensures { IsToldWith (told_names outline) told result }
{
    match told {
        Explanation::Mistake(text) => match near_name(alloc, outline, words) {
            Some(name) => Explanation::Mistake(tipped(alloc, text, name)),
            None => Explanation::Mistake(text),
        },
        other => other,
    }
}

// The text of a mistake with a tip below its first line, or as it is where memory is refused.
fn tipped(alloc: Global, text: String, name: &str) -> String
    ensures { MayHaveTip name.now (string_bytes text) (string_bytes result) }
{
    let Some((first, rest)) = text.as_str().split_once('\n') else {
        return text;
    };
    match format!(in alloc; "{first}\n\n  tip: help tells of '{name}'\n{rest}") {
        Ok(more) => more,
        Err(_) => text,
    }
}

// The name near the one that these words ask help about, if there is one.
fn near_name<S: AsStr>(alloc: Global, outline: Outline, words: &[S]) -> Option<&'static str>
    ensures { IfSome result (λ name. Contains (told_names outline) name.now) }
{
    let [help, name] = words else {
        return None;
    };
    if help.as_str() != "help" {
        return None;
    }
    match names_of(alloc, outline) {
        Ok(names) => nearest(alloc, name.as_str(), names.as_slice())
            .ok()
            .flatten(),
        Err(_) => None,
    }
}

// The names of a program's topics and commands.
fn names_of(alloc: Global, outline: Outline) -> Result<Vec<&'static str>, AllocError>
    ensures { IfOk result (λ names. map (λ name. name.now) names.items ≡ told_names outline) }
{
    let mut names = Vec::new(alloc);
    for topic in outline.topics {
        names.push(topic.name())?;
    }
    for line in outline.lines {
        names.push(line.name)?;
    }
    Ok(names)
}

// The first of the names that fewest edits make of a word, if that is at most one for two of its bytes.
fn nearest(
    alloc: Global,
    word: &str,
    names: &[&'static str],
) -> Result<Option<&'static str>, AllocError>
    ensures { IfOk result (λ near. IsNearest word.now (map (λ name. name.now) names.now)
        (option_map (λ name. name.now) near)) }
{
    let mut near = None;
    let mut more = word.len() / 2 + 1;
    for name in names {
        let edits = levenshtein(alloc, word, name)?;
        if edits < more {
            near = Some(*name);
            more = edits;
        }
    }
    Ok(near)
}
