//! Tests by chance, against the plain program. The first word is `scripts` or `images`, and the others
//! are that part's; with no word both parts are run, each with none.
//!
//! `scripts` runs random scripts of all operations, which are stopped, or whose calls of a disk fail,
//! or whose held writes are lost. `images` hurts images by single bytes, cuts and chance, and checks,
//! opens and recovers each. The first script or image that is not right ends the program, with
//! status 1.
#![tactic(auto)]

mod bases;
mod by_chance;
mod chance;
mod failing;
mod faults;
mod ground;
mod holding;
mod hurting;
mod image;
mod image_judging;
mod image_wrong;
mod judging;
mod kernels;
mod lengths;
mod playing;
mod reading;
mod script;
mod seeds;
mod setting;
mod stopping;
mod sweep;
mod tally;
mod wrong;

use crate::hurting::hurt_images;
use crate::seeds::try_scripts;
use anyhow::bail;
use std::alloc::Global;
use std::env;

fn main(rt: HostRuntime) -> anyhow::Result<()> {
    let words: Vec<String> = env::args(&rt)?.skip(1).collect(rt.alloc())?;
    match words.as_slice() {
        [] => {
            try_scripts(&rt, rt.alloc(), &[])?;
            hurt_images(&rt, rt.alloc(), &[])
        }
        [part, words @ ..] => try_part(&rt, rt.alloc(), part.as_str(), words),
    }
}

fn try_part(rt: &impl Print, alloc: Global, part: &str, words: &[String]) -> anyhow::Result<()> {
    match part {
        "scripts" => try_scripts(rt, alloc, words),
        "images" => hurt_images(rt, alloc, words),
        _ => bail!("the first word is scripts or images"),
    }
}
