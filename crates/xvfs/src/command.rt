// One command, and the exit status that it ends with.
ghost use Rattle.std.specs.Prelude.{◌≡◌, ◌≤◌, map};
ghost use Rattle.commands.specs.Words.{IsDoneOf, IsMisused, IsRefusedOf};
ghost use Rattle.xvfs.specs.Files.{ghosts_of};
ghost use Rattle.xvfs.specs.Requests.{Answers, IsDone, IsRefused, OnRefused, form_asked};
ghost use Rattle.xvfs_words.specs.CommandLine.{HasFewWorkers, xvfs_words};
ghost use Rattle.cli.specs.declared.explanation.Explanation.{Explanation as SomeExplanation};

use crate::progress::{Screen, TerminalMeter};
use crate::sparing::Sparing;
use crate::telling::{given, says_more};
use crate::topics::print_topic;
use arrayvec::ArrayVec;
use blocks::{Disk, FaultyDisk, FileDisk};
use cli::{Asked, Topic, parse};
use cmd::{Access, Command, Locking, Locks, OverFile, end, perform};
use commands::{Keeper, explain};
use commands_changes::{Convert, Copy, Making, Mkfs, Put, Rescue, Target};
use commands_runs::{Cat, Replay, replay_into, replay_json, run_files};
use commands_show::ShowPicture;
use commands_stops::{end_stops, stops_into};
use disk_commands::{Check, Recover};
use inspect::{Df, Ls, Show, ShowLog};
use messages::Detail;
use model::types::Form;
use second_lines::{Line, tell};
use std::convert::AsStr;
use std::io::Write;
use std::rt::Clock;
use std::sync::Wait;
use std::thread::Threads;
use xvfs_words::Request;

/// The program's name, with which the line of each refusal begins.
pub const NAME: &str = "xvfs";

/// Does the command that these words ask for, the program's name not among them: prints what it
/// answers to `out`, and why it wasn't done to `err`, as far as that can be written, in a second line
/// more of it where that is asked for, or a terminal is at the standard error. The exit status: 0
/// where it was done, 1 for a refusal, 2 where the words are no command.
///
/// With 0 the words make a command, and `out` has its answer, which is that of the disk that was
/// opened from a file; or they ask help for a format, and `out` has its lines; or they ask for help
/// or the version, whose text is clap's. With 1 they do too. Then no disk was opened, or the refusal is that disk's; and nothing was printed, but of a
/// check that tells all faults, of a replay whose disk failed, of a file in whose reading that or
/// memory failed, and of an output that failed. With 2 nothing is written to `out`, with 0 nothing
/// to `err`. What else `err` gets no contract tells, since it may fail at any byte.
pub(crate) fn command<
    R: Locks + AllocGlobal + Threads + Wait + Clock + Screen + Sync,
    S: AsStr,
    O: Write,
    E: Write,
>(rt: &R, words: &[S], out: &mut O, err: &mut E) -> u8
where
    R::File: Send,
    ensures status { result ≤ 2 }
    ensures done { result ≡ 0 → IsDone (ghosts_of R.File.remaining R.File.contents
        ⟦<FileDisk<R::File> as Disk>⟧ ⟦<FaultyDisk<FileDisk<R::File>> as Disk>⟧)
        (map S.text words.now) (O.contents out.old) (O.contents out.new) }
    ensures refused { result ≡ 1 → IsRefused (ghosts_of R.File.remaining R.File.contents
        ⟦<FileDisk<R::File> as Disk>⟧ ⟦<FaultyDisk<FileDisk<R::File>> as Disk>⟧)
        (map S.text words.now) (O.contents out.old) (O.contents out.new) (out.new ≡ out.old) }
    ensures wrong { result ≡ 2 → (e : SomeExplanation)
        × IsMisused xvfs_words (map S.text words.now) (out.new ≡ out.old) e }
    ensures silent { result ≡ 0 → err.new ≡ err.old }
    ensures misused { result ≡ 2 → out.new ≡ out.old }
{
    match Topic::asked(words) {
        Some(topic) => end(NAME, print_topic(out, topic), err),
        None => command_of(rt, words, out, err),
    }
}

// The same where they ask for no format.
#[tactic(auto, using(xvfs_words::specs::Lemmas::Workers::few_workers))]
fn command_of<
    R: Locks + AllocGlobal + Threads + Wait + Clock + Screen + Sync,
    S: AsStr,
    O: Write,
    E: Write,
>(rt: &R, words: &[S], out: &mut O, err: &mut E) -> u8
where
    R::File: Send,
    ensures status { result ≤ 2 }
    ensures done { result ≡ 0 → IsDoneOf xvfs_words (Answers (ghosts_of
        R.File.remaining R.File.contents
        ⟦<FileDisk<R::File> as Disk>⟧ ⟦<FaultyDisk<FileDisk<R::File>> as Disk>⟧))
        (map S.text words.now) (O.contents out.old) (O.contents out.new) }
    ensures refused { result ≡ 1 → IsRefusedOf xvfs_words (OnRefused (ghosts_of
        R.File.remaining R.File.contents
        ⟦<FileDisk<R::File> as Disk>⟧ ⟦<FaultyDisk<FileDisk<R::File>> as Disk>⟧))
        (map S.text words.now) (O.contents out.old) (O.contents out.new) (out.new ≡ out.old) }
    ensures wrong { result ≡ 2 → (e : SomeExplanation)
        × IsMisused xvfs_words (map S.text words.now) (out.new ≡ out.old) e }
    ensures silent { result ≡ 0 → err.new ≡ err.old }
    ensures misused { result ≡ 2 → out.new ≡ out.old }
{
    match parse(rt.alloc(), words) {
        Ok(asked) => dispatch_alone(rt, asked, out, err),
        Err(explanation) => explain(NAME, explanation, out, err),
    }
}

// The new file at a path, with who tells how far its image is, and who holds it.
fn target_at<'a, R: Clock + Screen + Locks>(
    rt: &'a R,
    path: &'a str,
    sync: bool,
    locking: Locking,
) -> Target<'a, TerminalMeter<'a, R>, Keeper<'a, R>>
    ensures { result.sync ≡ sync }
{
    Target {
        path,
        sync,
        progress: TerminalMeter::new(rt),
        holder: Keeper::new(rt, locking),
    }
}

// How the locks of files are taken, as is asked.
fn locking_of<'a>(asked: &Asked<Request<'a>>) -> Locking {
    if asked.no_lock {
        Locking::Never
    } else if asked.wait {
        Locking::Wait
    } else {
        Locking::AtOnce
    }
}

// Does what is asked for, as `dispatch`, and tells why it was refused. The exit status.
fn dispatch_alone<
    R: Locks + AllocGlobal + Threads + Wait + Clock + Screen + Sync,
    O: Write,
    E: Write,
>(rt: &R, asked: Asked<Request<'_>>, out: &mut O, err: &mut E) -> u8
where
    R::File: Send,
    requires { HasFewWorkers asked.request }
    ensures status { result ≤ 1 }
    ensures done { result ≡ 0 → Answers (ghosts_of R.File.remaining R.File.contents
        ⟦<FileDisk<R::File> as Disk>⟧ ⟦<FaultyDisk<FileDisk<R::File>> as Disk>⟧)
        asked.entry.request (O.contents out.old) (O.contents out.new) }
    ensures refused { result ≡ 1 → OnRefused (ghosts_of R.File.remaining R.File.contents
        ⟦<FileDisk<R::File> as Disk>⟧ ⟦<FaultyDisk<FileDisk<R::File>> as Disk>⟧)
        asked.entry.request (O.contents out.old) (O.contents out.new) (out.new ≡ out.old) }
    ensures silent { result ≡ 0 → err.new ≡ err.old }
{
    let mut line: Line = ArrayVec::new();
    let status = dispatch(rt, asked.request, locking_of(&asked), out, &mut line);
    if status > 0 {
        let more = says_more(rt, asked.explain);
        tell(rt, more, &given(&asked.request), line.as_slice(), err);
    }
    status
}

// Does what is asked for, and prints the answer, or why it was refused. The exit status.
fn dispatch<R: Locks + AllocGlobal + Threads + Wait + Clock + Screen + Sync, O: Write, E: Write>(
    rt: &R,
    request: Request<'_>,
    locking: Locking,
    out: &mut O,
    err: &mut E,
) -> u8
where
    R::File: Send,
    requires { HasFewWorkers request }
    ensures status { result ≤ 1 }
    ensures done { result ≡ 0 → Answers (ghosts_of R.File.remaining R.File.contents
        ⟦<FileDisk<R::File> as Disk>⟧ ⟦<FaultyDisk<FileDisk<R::File>> as Disk>⟧)
        request.entry (O.contents out.old) (O.contents out.new) }
    ensures refused { result ≡ 1 → OnRefused (ghosts_of R.File.remaining R.File.contents
        ⟦<FileDisk<R::File> as Disk>⟧ ⟦<FaultyDisk<FileDisk<R::File>> as Disk>⟧)
        request.entry (O.contents out.old) (O.contents out.new) (out.new ≡ out.old) }
    ensures silent { result ≡ 0 → err.new ≡ err.old }
{
    match request {
        Request::Mkfs {
            image,
            size,
            ninodes,
            large,
            no_sync,
        } => perform_alone(
            rt,
            Mkfs {
                image,
                making: Making {
                    form: form_asked(large),
                    size,
                    ninodes,
                    sync: !no_sync,
                },
                holder: Keeper::new(rt, locking),
            },
            out,
            err,
        ),
        Request::Check { image, all, json } => {
            perform_alone(
                rt,
                OverFile(image, Access::Look(locking), Check { all, json }),
                out,
                err,
            )
        }
        Request::Recover { image, sync, json } => {
            let recover = Recover {
                progress: TerminalMeter::new(rt),
                json,
            };
            perform_alone(
                rt,
                OverFile(image, Access::Change { sync, locking }, recover),
                out,
                err,
            )
        }
        Request::Cat {
            image,
            inum,
            read_only,
        } => {
            let cat = Cat {
                image,
                inum,
                read_only,
                locking,
            };
            perform_alone(rt, cat, out, err)
        }
        Request::Ls { image, json } => perform_alone(
            rt,
            OverFile(image, Access::Look(locking), Ls { json }),
            out,
            err,
        ),
        Request::Df { image, json } => perform_alone(
            rt,
            OverFile(image, Access::Look(locking), Df { json }),
            out,
            err,
        ),
        Request::Show { image, inum, json } => perform_alone(
            rt,
            OverFile(image, Access::Look(locking), Show { inum, json }),
            out,
            err,
        ),
        Request::ShowLog { image, json } => {
            perform_alone(
                rt,
                OverFile(image, Access::Look(locking), ShowLog { json }),
                out,
                err,
            )
        }
        Request::ShowPicture { image, picture } => perform_alone(
            rt,
            ShowPicture {
                image,
                locking,
                picture,
                holder: Keeper::new(rt, at_once(locking)),
            },
            out,
            err,
        ),
        Request::Put {
            image,
            file,
            inum,
            sync,
            no_sync,
        } => {
            let progress = TerminalMeter::new(rt);
            perform_alone(
                rt,
                Put {
                    image,
                    file,
                    inum,
                    sync,
                    last: !no_sync,
                    locking,
                    progress,
                    holder: Keeper::new(rt, locking),
                },
                out,
                err,
            )
        }
        Request::Copy {
            old,
            new,
            size,
            no_sync,
        } => {
            let target = target_at(rt, new, !no_sync, locking);
            let copy = Copy {
                old,
                locking,
                size,
                target,
            };
            perform_alone(rt, copy, out, err)
        }
        Request::Convert {
            old,
            new,
            log,
            size,
            no_sync,
        } => {
            let target = target_at(rt, new, !no_sync, locking);
            let convert = Convert {
                old,
                locking,
                log,
                size,
                target,
            };
            perform_alone(rt, convert, out, err)
        }
        Request::Rescue { old, new, no_sync } => {
            let target = target_at(rt, new, !no_sync, locking);
            let rescue = Rescue {
                old,
                locking,
                target,
            };
            perform_alone(rt, rescue, out, err)
        }
        Request::Replay {
            image,
            script,
            schedule,
            stop,
            sync,
            writes,
            steps,
            picture,
            plain,
        } => {
            let mut progress = TerminalMeter::beside_lines(rt);
            let mut holder = Sparing::new(rt, at_once(locking), image);
            let replay = Replay {
                image,
                script,
                schedule,
                stop,
                sync,
                locking,
            };
            let detail = Detail { steps, writes };
            end(
                NAME,
                replay_into(
                    rt,
                    replay,
                    detail,
                    picture,
                    plain,
                    &mut progress,
                    &mut holder,
                    out,
                ),
                err,
            )
        }
        Request::ReplayJson {
            image,
            script,
            schedule,
            stop,
            sync,
        } => {
            let mut progress = TerminalMeter::beside_lines(rt);
            let replay = Replay {
                image,
                script,
                schedule,
                stop,
                sync,
                locking,
            };
            end(NAME, replay_json(rt, replay, &mut progress, out), err)
        }
        Request::Run {
            image,
            script,
            workers,
            group,
            sync,
        } => end(
            NAME,
            run_files(rt, image, script, workers, group, sync, locking, out),
            err,
        ),
        Request::Stops {
            script,
            schedule,
            held,
            picture,
            plain,
            json,
        } => {
            let mut progress = TerminalMeter::new(rt);
            let mut holder = Keeper::new(rt, at_once(locking));
            end_stops(
                NAME,
                stops_into(
                    rt,
                    script,
                    schedule,
                    held,
                    json,
                    picture,
                    plain,
                    &mut progress,
                    &mut holder,
                    out,
                ),
                err,
            )
        }
    }
}

// The same as `perform`, in a frame of its own: in one frame the commands take the stack of all.
#[inline(never)]
fn perform_alone<R, C: Command<R>, O: Write, E: Write>(
    rt: &R,
    command: C,
    out: &mut O,
    err: &mut E,
) -> u8
    ensures status { result ≤ 1 }
    ensures done { result ≡ 0 → C.done command (O.contents out.old) (O.contents out.new) }
    ensures silent { result ≡ 0 → err.new ≡ err.old }
    ensures refused { result ≡ 1 → (r : C.Refusal) × C.refused command
        (O.contents out.old) (O.contents out.new) (out.new ≡ out.old) r }
{
    perform(NAME, rt, command, out, err)
}

// How the lock of a picture's file is taken, for which nothing waits.
fn at_once(locking: Locking) -> Locking {
    match locking {
        Locking::Wait => Locking::AtOnce,
        locking => locking,
    }
}

// The form of the image that is made.
fn form_asked(large: bool) -> Form
    ensures { result ≡ form_asked large }
{
    if large { Form::Two } else { Form::One }
}
