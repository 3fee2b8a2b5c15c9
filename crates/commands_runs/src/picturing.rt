// The command that makes a script's operations over the disk in a file, and draws its steps.
ghost use Rattle.std.specs.Prelude.{◌≡◌, ◌≤◌, IfErr, IfOk, OnOk, unwrap_or};
ghost use Rattle.cmd.specs.Lemmas.Disks.{file_disk};
ghost use Rattle.cmd.specs.Opened.{OpensDisk};
ghost use Rattle.commands_runs.specs.Images.{opened_image};
ghost use Rattle.player.specs.Told.{in_lines};
ghost use Rattle.commands_runs.specs.Pictures.{
  HasPicture,
  IsPictured,
  IsSceneOf,
  IsUnbegun,
  IsUndrawn,
  IsUnpictured,
  pictured_telling,
};
ghost use Rattle.commands_runs.specs.Pages.{HasPage, IsNotReplayedInto, IsReplayedInto};
ghost use Rattle.commands_runs.specs.Recorded.{none_recorded};
ghost use Rattle.commands_runs.specs.Runs.{IsReplayedSo};

use crate::exploring::replay_explored;
use crate::heard::replay_told;
use crate::picture_teller::PictureTeller;
use crate::runs::{Replay, ReplayFilesRefusal, read_replay, replay_files};
use crate::scene::Scene;
use blocks::{Block, NoMemory};
use cmd::Locks;
use commands::Holder;
use commands_drawing::{PictureFault, draw};
use messages::{Detail, MOST_COLUMNS, Meter, Reason, Told};
use pictures::{Frame, Recorder, Timeline};
use std::alloc::Global;
use std::io::Write;
use std::rt::Files;

/// Why a script isn't replayed and drawn.
#[derive(Clone, Copy, Debug)]
pub enum PicturedRefusal {
    /// Memory for the steps was refused, and nothing was done.
    NoMemory,
    /// The replay was refused, and nothing was drawn.
    Replay(ReplayFilesRefusal),
    /// The replay was made and printed. It has so many steps, which is more than a picture has.
    TooLong(u32),
    /// The replay was made and printed. Memory to make it once more, for its files, was refused, or
    /// memory for what is told of it.
    Unfiled,
    /// The replay was made and printed, and isn't drawn.
    Picture(PictureFault),
}

impl Reason for PicturedRefusal {
    ghost telling = { pictured_telling };

    fn told(&self) -> Told {
        match self {
            PicturedRefusal::NoMemory | PicturedRefusal::Unfiled => Told::new(
                "picture", 1, "NoMemory",
            ),
            PicturedRefusal::Replay(refusal) => refusal.told(),
            PicturedRefusal::TooLong(steps) => Told::naming("picture", 2, "TooLong", *steps),
            PicturedRefusal::Picture(fault) => fault.told(),
        }
    }
}

/// Recovers the image in the file of a replay, and makes the operations of its script in the turns of
/// its schedule, as `replay_disk`. The meter is told how many of the schedule's words were done. Where
/// a path is given as `picture`, a page is then made in the file at it that walks through the steps; or,
/// where it is to be plain, one on which they are drawn.
///
/// # Errors
///
/// - `NoMemory`: nothing was done.
/// - `Replay`: a fault of the script, then of the schedule, then of `FileDisk::open`, then a refusal of
///   `replay_disk`. Nothing was drawn.
/// - `TooLong`: the replay was made and printed, and has more steps than 10,000, or, where it is drawn,
///   than `MOST_COLUMNS`.
/// - `Unfiled`: the same, and memory to make it once more, or for what is told of it, was refused.
/// - `Picture`: the same, with a fault of the file drawn into. With all but this the holder is as it was.
pub fn replay_into<R: Locks + AllocGlobal, P: Meter, H: Holder<R::File>, O: Write>(
    rt: &R,
    replay: Replay<'_>,
    detail: Detail,
    picture: Option<&str>,
    plain: bool,
    progress: &mut P,
    holder: &mut H,
    out: &mut O,
) -> Result<(), PicturedRefusal>
    ensures done { OnOk result (OpensDisk R.File.remaining file_disk replay.entry.sync
        (IsReplayedInto R.File.contents replay.entry.sync detail
        (unwrap_or replay.entry.stop 0) (O.contents out.old) (O.contents out.new)
        picture.entry plain)) }
    ensures refused { IfErr result (IsNotReplayedInto R.File.remaining replay.entry.sync
        detail (unwrap_or replay.entry.stop 0) plain
        (O.contents out.old) (O.contents out.new) (out.new ≡ out.old)) }
    ensures unbegun { IfErr result (λ refusal. IsUnbegun refusal → holder.new ≡ holder.old) }
{
    if let Some(path) = picture {
        return replay_on_page(rt, replay, detail, path, plain, progress, holder, out);
    }
    match replay_files(rt, replay, detail, progress, out) {
        Ok(()) => Ok(()),
        Err(refusal) => Err(PicturedRefusal::Replay(refusal)),
    }
}

// Replays a script, and makes a page of it, which walks through its steps, or on which they are drawn.
fn replay_on_page<R: Locks + AllocGlobal, P: Meter, H: Holder<R::File>, O: Write>(
    rt: &R,
    replay: Replay<'_>,
    detail: Detail,
    path: &str,
    plain: bool,
    progress: &mut P,
    holder: &mut H,
    out: &mut O,
) -> Result<(), PicturedRefusal>
    ensures done { OnOk result (OpensDisk R.File.remaining file_disk replay.entry.sync
        (IsReplayedSo (in_lines detail) (unwrap_or replay.entry.stop 0)
        (O.contents out.old) (O.contents out.new)
        (HasPage R.File.contents replay.entry.sync (unwrap_or replay.entry.stop 0) plain))) }
    ensures refused { IfErr result (IsNotReplayedInto R.File.remaining replay.entry.sync
        detail (unwrap_or replay.entry.stop 0) plain
        (O.contents out.old) (O.contents out.new) (out.new ≡ out.old)) }
    ensures unbegun { IfErr result (λ refusal. IsUnbegun refusal → holder.new ≡ holder.old) }
{
    if plain {
        return replay_pictured(rt, replay, detail, path, progress, holder, out);
    }
    replay_explored(rt, replay, detail, path, progress, holder, out)
}

// Replays a script as `replay_files`, and then draws its steps into the file at the path `picture`,
// as `draw`, with the files that recovery gives of what a stop leaves: before the first write, and
// behind each step with which a group was committed. For each of these stops the replay is made once
// more in memory, over a copy of the disk as it was opened.
//
// # Errors
//
// `NoMemory`, and then nothing was done; `Replay` with a refusal of `replay_files`, and then nothing
// was drawn. With the others the replay was made and printed: `TooLong` where it has more steps than
// `MOST_COLUMNS`; `Unfiled` where memory to make it once more is refused; `Picture` with a fault of
// `draw`. With all but `Picture` the holder is as it was.
pub(crate) fn replay_pictured<R: Locks + AllocGlobal, P: Meter, H: Holder<R::File>, O: Write>(
    rt: &R,
    replay: Replay<'_>,
    detail: Detail,
    picture: &str,
    progress: &mut P,
    holder: &mut H,
    out: &mut O,
) -> Result<(), PicturedRefusal>
    ensures drawn { OnOk result (OpensDisk R.File.remaining file_disk replay.entry.sync
        (IsReplayedSo (in_lines detail) (unwrap_or replay.entry.stop 0)
        (O.contents out.old) (O.contents out.new)
        (HasPicture R.File.contents replay.entry.sync))) }
    ensures refused { IfErr result (IsUnpictured R.File.remaining replay.entry.sync
        detail (unwrap_or replay.entry.stop 0)
        (O.contents out.old) (O.contents out.new) (out.new ≡ out.old)) }
    ensures unbegun { IfErr result (λ refusal. IsUnbegun refusal → holder.new ≡ holder.old) }
{
    let (mut teller, mut block) = match take_room(rt.alloc(), detail) {
        Ok(room) => room,
        Err(_refused) => return Err(PicturedRefusal::NoMemory),
    };
    let replayed = replay_heard(rt, replay, &mut teller, &mut block, progress, out);
    match replayed {
        Ok(scene) => draw_run(rt, picture, &scene, teller.recorder(), holder),
        Err(refusal) => Err(refusal),
    }
}

// Room for the steps of a run, and for a block.
fn take_room(alloc: Global, detail: Detail) -> Result<(PictureTeller, Block), NoMemory>
    ensures detail { IfOk result (λ room. room.0.lines.detail ≡ detail) }
    ensures none { IfOk result (λ room. room.0.recorder ≡ none_recorded) }
{
    Ok((PictureTeller::new(alloc, detail)?, Block::zeroed(alloc)?))
}

// Replays a script, whose turns the teller hears of. The block is room for a superblock.
fn replay_heard<R: Locks + AllocGlobal, P: Meter, O: Write>(
    rt: &R,
    replay: Replay<'_>,
    teller: &mut PictureTeller,
    block: &mut Block,
    progress: &mut P,
    out: &mut O,
) -> Result<Scene, PicturedRefusal>
    ensures replayed { IfOk result (λ scene. OpensDisk R.File.remaining file_disk replay.entry.sync
        (IsReplayedSo (in_lines teller.old.lines.detail) (unwrap_or replay.entry.stop 0)
        (O.contents out.old) (O.contents out.new)
        (IsSceneOf teller.old.recorder teller.new.recorder replay.entry.sync scene))) }
    ensures refused { IfErr result (IsUnpictured R.File.remaining replay.entry.sync
        teller.old.lines.detail (unwrap_or replay.entry.stop 0)
        (O.contents out.old) (O.contents out.new) (out.new ≡ out.old)) }
{
    match read_replay(rt, replay) {
        Ok((scenario, disk)) => {
            replay_told(
                rt,
                disk,
                scenario,
                replay.sync,
                teller,
                block,
                progress,
                out,
            )
        }
        Err(refusal) => Err(PicturedRefusal::Replay(refusal)),
    }
}

// Draws the steps of a run.
fn draw_run<R: Files + AllocGlobal, H: Holder<R::File>>(
    rt: &R,
    path: &str,
    scene: &Scene,
    recorder: &Recorder,
    holder: &mut H,
) -> Result<(), PicturedRefusal>
    ensures fits { OnOk result (recorder.now.steps ≤ 2000) }
    ensures drawn { OnOk result (IsPictured R.File.contents scene.now.anew.holds
        (opened_image scene.now.anew.opened) scene.now.anew.tasks.items
        scene.now.anew.processes scene.now.anew.words.items scene.now.inode_count
        recorder.now) }
    ensures undrawn { IfErr result (λ refusal. IsUndrawn refusal recorder.now) }
    ensures unbegun { IfErr result (λ refusal. IsUnbegun refusal → holder.new ≡ holder.old) }
{
    if recorder.steps() > MOST_COLUMNS as u64 {
        return Err(PicturedRefusal::TooLong(recorder.steps().min(4_294_967_295) as u32));
    }
    let files = match scene.anew.files(rt.alloc(), recorder.moments()) {
        Ok(files) => files,
        Err(_refused) => return Err(PicturedRefusal::Unfiled),
    };
    // Two columns are left free for the last files.
    let frame = Frame {
        columns: recorder.columns().saturating_add(2),
        processes: scene.anew.processes,
        inode_count: scene.inode_count,
        holds: scene.anew.holds,
        has_files: true,
    };
    let timeline = Timeline {
        frame,
        moments: recorder.moments(),
        files: files.as_slice(),
    };
    match draw(rt, path, &timeline, holder) {
        Ok(()) => Ok(()),
        Err(fault) => Err(PicturedRefusal::Picture(fault)),
    }
}
