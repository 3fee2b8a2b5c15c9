// Random scripts of all seven operations, each by up to 32 processes in random turns. A script is run
// to its end, and then stopped before up to 20 of its writes; what it left is compared each time
// with the plain program: after a recovery the image is sound, and its files are those after
// exactly the changing operations of the committed groups.
//
// With no words it runs the scripts of 200 seeds, and then one in which each of 32
// processes in turn creates a file, writes to one, and truncates or removes one, stopped before
// each of its writes. Then it runs the scripts of 100 seeds, with at most 24 operations each, once
// for each read and twice for each write that they make: that call fails, and a write that fails
// leaves its block as it was, and the second time as it was handed in. Where that is the header
// that commits a group, the files are those after one group more. Then it runs the scripts of 100
// seeds over a disk that holds writes back: a stop at random turns, and wherever writes are held,
// loses random ones of these, and each sync fails in turn. It prints what all of these came to.
//
// Last it does the like over images of the second form, in which the first file grows over the
// blocks that its indirect block names, or over those that its first second block does: the
// scripts of 60 seeds with their stops, those of 20 in which each fifth call fails, and those of 20
// over a disk that holds writes back. Most of these images have the beginning of that file before
// the run.
//
// With two words it runs the scripts of so many seeds from the first word on; with the word `calls`
// before these, each call of them fails in turn, and with the word `held` they are run over a disk
// that holds writes back. With `large` as the first word of all it does so over images of the
// second form. The first script that is not right ends it, with status 1.
use crate::failing::fail_each;
use crate::ground::Ground;
use crate::holding::lose_some;
use crate::setting::Setting;
use crate::stopping::stop_some;
use crate::tally::{FAILED, LOST, Row, STOPPED, Tally};
use crate::wrong::{Part, Wrong};
use anyhow::bail;
use model::types::Form;
use std::alloc::Global;

/// The run with words, or with none.
pub fn try_scripts(rt: &impl Print, alloc: Global, words: &[String]) -> anyhow::Result<()> {
    match words {
        [] => try_all(rt, alloc),
        [large, words @ ..] if large.as_str() == "large" => {
            try_named(rt, alloc, words, Form::Two)
        }
        words => try_named(rt, alloc, words, Form::One),
    }
}

// The run with words, over images of that form.
fn try_named(rt: &impl Print, alloc: Global, words: &[String], form: Form) -> anyhow::Result<()> {
    match words {
        [first, count] => try_seeds(rt, alloc, Trial::Stops, Seeds::parse(first, count, form)?),
        [calls, first, count] if calls.as_str() == "calls" => {
            try_seeds(rt, alloc, Trial::Calls, Seeds::parse(first, count, form)?)
        }
        [held, first, count] if held.as_str() == "held" => {
            try_seeds(rt, alloc, Trial::Held, Seeds::parse(first, count, form)?)
        }
        _ => bail!("the words are the first seed and how many there are, or none"),
    }
}

// What is done to scripts.
#[derive(Clone, Copy)]
enum Trial {
    /// They are stopped before some of their writes.
    Stops,
    /// Each of their calls fails in turn.
    Calls,
    /// They are run over a disk that holds writes back.
    Held,
}

impl Trial {
    // What the script of a seed is made for.
    fn setting(self, seed: u64, form: Form) -> Setting {
        match self {
            Trial::Stops => Setting::drawn(seed, form),
            Trial::Calls | Trial::Held => Setting::short(seed, form),
        }
    }

    // The parts of its table.
    fn parts(self, form: Form) -> &'static [(Row, Row)] {
        match (self, form) {
            (Trial::Stops, Form::One) => &STOPPED[..2],
            (Trial::Stops, Form::Two) => &STOPPED,
            (Trial::Calls, _) => &FAILED,
            (Trial::Held, _) => &LOST,
        }
    }
}

// So many seeds from the first on, of scripts over images of that form.
#[derive(Clone, Copy)]
struct Seeds {
    first: u64,
    count: u64,
    form: Form,
}

impl Seeds {
    fn of(count: u64, form: Form) -> Seeds {
        Seeds {
            first: 1,
            count,
            form,
        }
    }

    fn parse(first: &String, count: &String, form: Form) -> anyhow::Result<Seeds> {
        Ok(Seeds {
            first: first.as_str().parse()?,
            count: count.as_str().parse()?,
            form,
        })
    }
}

// The run with no words.
fn try_all(rt: &impl Print, alloc: Global) -> anyhow::Result<()> {
    try_seeds(rt, alloc, Trial::Stops, Seeds::of(200, Form::One))?;
    println!(rt; "\nin rows")?;
    try_rows(rt, alloc)?;
    println!(rt; "\neach call failing")?;
    try_seeds(rt, alloc, Trial::Calls, Seeds::of(100, Form::One))?;
    println!(rt; "\nover a disk that holds writes back")?;
    try_seeds(rt, alloc, Trial::Held, Seeds::of(100, Form::One))?;
    println!(rt; "\nimages of the second form")?;
    try_seeds(rt, alloc, Trial::Stops, Seeds::of(60, Form::Two))?;
    println!(rt; "\neach call failing, over images of the second form")?;
    try_seeds(rt, alloc, Trial::Calls, Seeds::of(20, Form::Two))?;
    println!(rt; "\nimages of the second form, over a disk that holds writes back")?;
    try_seeds(rt, alloc, Trial::Held, Seeds::of(20, Form::Two))
}

// The script in rows.
fn try_rows(rt: &impl Print, alloc: Global) -> anyhow::Result<()> {
    let mut tally = Tally::new();
    if let Err(wrong) = try_script(alloc, Trial::Stops, 0, Setting::in_rows(), &mut tally) {
        bail!("in rows: {wrong}");
    }
    tally.print(rt, Trial::Stops.parts(Form::One))?;
    Ok(())
}

// Tries the scripts of seeds, and prints what these came to.
fn try_seeds(rt: &impl Print, alloc: Global, trial: Trial, seeds: Seeds) -> anyhow::Result<()> {
    let mut tally = Tally::new();
    for k in 0..seeds.count {
        let seed = seeds.first.wrapping_add(k);
        let setting = trial.setting(seed, seeds.form);
        if let Err(wrong) = try_script(alloc, trial, seed, setting, &mut tally) {
            bail!("seed {seed}: {wrong}");
        }
    }
    tally.print(rt, trial.parts(seeds.form))?;
    Ok(())
}

fn try_script(
    alloc: Global,
    trial: Trial,
    seed: u64,
    setting: Setting,
    tally: &mut Tally,
) -> Result<(), Wrong> {
    let ground = match Ground::new(alloc, seed, setting) {
        Ok(ground) => ground,
        Err(what) => return Err(what.at(Part::Image, 0)),
    };
    match trial {
        Trial::Stops => stop_some(alloc, &ground, tally),
        Trial::Calls => fail_each(alloc, &ground, tally),
        Trial::Held => lose_some(alloc, &ground, tally),
    }
}
