// A replay over the disk in a file, whose turns are recorded.
ghost use Rattle.std.specs.Prelude.{◌≡◌, ◌<◌, All, IfErr, IfOk, IsTrue, unwrap_or};
ghost use Rattle.std.specs.List.{list_all};
ghost use Rattle.cmd.specs.Lemmas.Disks.{file_disk};
ghost use Rattle.cmd.specs.Opened.{IsOpened, OpensDisk};
ghost use Rattle.model.specs.Layout.{inode_count_of};
ghost use Rattle.player.specs.Told.{in_lines};
ghost use Rattle.scripts.specs.Schedule.{is_word_of};
ghost use Rattle.commands_runs.specs.Pictures.{IsSceneOf, IsUnpictured};
ghost use Rattle.commands_runs.specs.Runs.{IsReplayedSo};

use crate::anew::Anew;
use crate::picture_teller::PictureTeller;
use crate::picturing::PicturedRefusal;
use crate::runs::ReplayFilesRefusal;
use crate::scene::Scene;
use blocks::{Block, Disk, FileDisk};
use layout::superblock;
use messages::Meter;
use player::{Scenario, replay_with};
use std::fs::OpenFile;
use std::io::{Seek, Write};
use std::rt::Files;

// Replays a scenario over a disk that was just opened. The block is room for one. It is refused with
// `NoMemory`, and then nothing was done, or with `Replay`.
pub(crate) fn replay_told<R: Files + AllocGlobal, P: Meter, O: Write>(
    rt: &R,
    disk: FileDisk<R::File>,
    scenario: Scenario,
    sync: bool,
    teller: &mut PictureTeller,
    block: &mut Block,
    progress: &mut P,
    out: &mut O,
) -> Result<Scene, PicturedRefusal>
    requires opened { IsOpened R.File.remaining file_disk sync disk }
    requires tasks { All (λ task. task.pid < scenario.processes) scenario.tasks.items }
    requires words { IsTrue (list_all (is_word_of scenario.processes) scenario.words.items) }
    ensures replayed { IfOk result (λ scene. OpensDisk R.File.remaining file_disk
        sync (IsReplayedSo (in_lines teller.old.lines.detail) (unwrap_or scenario.stop 0)
        (O.contents out.old) (O.contents out.new)
        (IsSceneOf teller.old.recorder teller.new.recorder sync scene))) }
    ensures refused { IfErr result (IsUnpictured R.File.remaining sync teller.old.lines.detail
        (unwrap_or scenario.stop 0) (O.contents out.old) (O.contents out.new)
        (out.new ≡ out.old)) }
{
    let mut disk = disk;
    let anew = match Anew::of(rt.alloc(), &mut disk, &scenario, sync, block) {
        Ok(anew) => anew,
        Err(_refused) => return Err(PicturedRefusal::NoMemory),
    };
    let (ran, mut disk) = replay_with(rt.alloc(), disk, scenario, teller, progress, out);
    match ran {
        Ok(()) => Ok(Scene {
            inode_count: count_inodes(&mut disk, block),
            anew,
        }),
        Err(refusal) => Err(PicturedRefusal::Replay(ReplayFilesRefusal::Replay(refusal))),
    }
}

// The inode numbers that the superblock on a disk tells: none where there is no such block.
fn count_inodes<F: Write + Seek + OpenFile + Drop>(disk: &mut FileDisk<F>, block: &mut Block) -> u32
    ensures { result ≡ inode_count_of (file_disk.image disk.old) }
{
    if disk.size() < 2 {
        return 0;
    }
    match disk.read(1, block) {
        Ok(()) => superblock::read(block.as_slice()).ninodes,
        Err(_) => unreachable!(),
    }
}
