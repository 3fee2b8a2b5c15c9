// One command, and the exit status that it ends with.
ghost use Rattle.std.specs.Prelude.{◌≡◌, ◌≤◌, false, map};
ghost use Rattle.cmd.specs.Changes.{change as change_of};
ghost use Rattle.cmd.specs.Lemmas.Disks.{file_disk};
ghost use Rattle.cmd.specs.Opened.{OpensDisk};
ghost use Rattle.cmd.specs.Over.{IsRefusedOn};
ghost use Rattle.commands.specs.Words.{IsDoneOf, IsMisused, IsRefusedOf};
ghost use Rattle.names_words.specs.CommandLine.{xvnames_words};
ghost use Rattle.xvnames.specs.Requests.{Answers, Gets, GetsNot, Makes, MakesNot, OnRefused, Removes, RemovesNot};
ghost use Rattle.xvnames.specs.Making.{IsMadeWith};
ghost use Rattle.xvnames.specs.Unmade.{IsNotMadeWith};
ghost use Rattle.cli.specs.declared.explanation.Explanation.{Explanation as SomeExplanation};
ghost use Rattle.cmd.specs.declared.files.OnFile.{OnFile as SomeOnFile};
ghost use Rattle.xvnames.specs.declared.refused.MkfsRefusal.{MkfsRefusal as SomeMkfsRefusal};

use crate::making::Mkfs;
use crate::telling::{Screen, given};
use arrayvec::ArrayVec;
use blocks::{Disk, FileDisk};
use cli::{Asked, parse};
use cmd::{Access, DiskCommand, Locking, Locks, OverFile, perform};
use commands::{Keeper, explain};
use commands_changes::Making;
use model::types::Form;
use names_words::Request;
use second_lines::{Line, tell};
use std::convert::AsStr;
use std::io::Write;
use tree_changes::{
    Link, MakeDirectories, MakeDirectory, OverTree, Recount, Remove, RemoveAll, RemoveDirectory,
    Rename,
};
use tree_looks::{Cat, Counts, Get, GetAll, InTree, Ls, OverFiles, Paths, Stat};
use tree_puts::{CopyFile, PutFile, PutFolder};

/// The program's name, with which the line of each refusal begins.
pub const NAME: &str = "xvnames";

/// Does the command that these words ask for, the program's name not among them: prints what it
/// answers to `out`, and why it wasn't done to `err`, as far as that can be written, in a second line
/// more of it where that is asked for, or a terminal is at the standard error. The exit status: 0
/// where it was done, 1 for a refusal, 2 where the words are no command.
///
/// With 0 the words make a command, and `out` has its answer, which is that of the disk that was
/// opened from a file; or they ask for help or the version, whose text is clap's. With 1 they do too.
/// Then no disk was opened, or the refusal is that disk's; and nothing was printed, unless the output
/// failed, but for what `check` tells of files that are no tree. With 2 nothing is written to `out`, with 0 nothing to `err`.
pub(crate) fn command<R: Locks + AllocGlobal + Screen, S: AsStr, O: Write, E: Write>(
    rt: &R,
    words: &[S],
    out: &mut O,
    err: &mut E,
) -> u8
    ensures status { result ≤ 2 }
    ensures done { result ≡ 0 → IsDoneOf xvnames_words (Answers R.File.remaining R.File.contents)
        (map S.text words.now) (O.contents out.old) (O.contents out.new) }
    ensures refused { result ≡ 1 → IsRefusedOf xvnames_words (OnRefused R.File.remaining)
        (map S.text words.now) (O.contents out.old) (O.contents out.new) (out.new ≡ out.old) }
    ensures wrong { result ≡ 2 → (e : SomeExplanation)
        × IsMisused xvnames_words (map S.text words.now) (out.new ≡ out.old) e }
    ensures silent { result ≡ 0 → err.new ≡ err.old }
    ensures misused { result ≡ 2 → out.new ≡ out.old }
{
    match parse(rt.alloc(), words) {
        Ok(asked) => dispatch_alone(rt, asked, out, err),
        Err(explanation) => explain(NAME, explanation, out, err),
    }
}

// Does what is asked for where no other program has the image, and tells why it was refused; it may
// be asked to wait. The exit status.
fn dispatch_alone<R: Locks + AllocGlobal + Screen, O: Write, E: Write>(
    rt: &R,
    asked: Asked<Request<'_>>,
    out: &mut O,
    err: &mut E,
) -> u8
    ensures status { result ≤ 1 }
    ensures done { result ≡ 0 → Answers R.File.remaining R.File.contents asked.entry.request
        (O.contents out.old) (O.contents out.new) }
    ensures refused { result ≡ 1 → OnRefused R.File.remaining asked.entry.request
        (O.contents out.old) (O.contents out.new) (out.new ≡ out.old) }
    ensures silent { result ≡ 0 → err.new ≡ err.old }
{
    let mut line: Line = ArrayVec::new();
    let status = dispatch(rt, &asked, locking_of(&asked), out, &mut line);
    if status > 0 {
        let more = asked.explain || rt.shows_errors();
        tell(rt, more, &given(&asked.request), line.as_slice(), err);
    }
    status
}

// How the locks of files are taken, as is asked.
fn locking_of(asked: &Asked<Request<'_>>) -> Locking {
    if asked.no_lock {
        Locking::Never
    } else if asked.wait {
        Locking::Wait
    } else {
        Locking::AtOnce
    }
}

// A look at the image in a file.
fn look<R: Locks + AllocGlobal, C: DiskCommand + Drop, O: Write, E: Write>(
    rt: &R,
    image: &str,
    locking: Locking,
    look: C,
    out: &mut O,
    err: &mut E,
) -> u8
    ensures status { result ≤ 1 }
    ensures done { result ≡ 0 → OpensDisk R.File.remaining file_disk false
        (λ d e. C.done look (change_of file_disk d e) (O.contents out.old) (O.contents out.new)) }
    ensures refused { result ≡ 1 → (r : SomeOnFile C.Refusal) × IsRefusedOn R.File.remaining false
        (out.new ≡ out.old) (λ d e. C.refused look (change_of file_disk d e)
        (O.contents out.old) (O.contents out.new) (out.new ≡ out.old)) r }
    ensures silent { result ≡ 0 → err.new ≡ err.old }
{
    perform(
        NAME,
        rt,
        OverFile(image, Access::Look(locking), look),
        out,
        err,
    )
}

// A change of the image in a file.
fn change<R: Locks + AllocGlobal, C: DiskCommand + Drop, O: Write, E: Write>(
    rt: &R,
    image: &str,
    locking: Locking,
    sync: bool,
    change: C,
    out: &mut O,
    err: &mut E,
) -> u8
    ensures status { result ≤ 1 }
    ensures done { result ≡ 0 → OpensDisk R.File.remaining file_disk sync
        (λ d e. C.done change (change_of file_disk d e) (O.contents out.old) (O.contents out.new)) }
    ensures refused { result ≡ 1 → (r : SomeOnFile C.Refusal) × IsRefusedOn R.File.remaining sync
        (out.new ≡ out.old) (λ d e. C.refused change (change_of file_disk d e)
        (O.contents out.old) (O.contents out.new) (out.new ≡ out.old)) r }
    ensures silent { result ≡ 0 → err.new ≡ err.old }
{
    let access = Access::Change { sync, locking };
    perform(NAME, rt, OverFile(image, access, change), out, err)
}

// Does what is asked for, and prints the answer, or why it was refused. The exit status.
fn dispatch<R: Locks + AllocGlobal, O: Write, E: Write>(
    rt: &R,
    asked: &Asked<Request<'_>>,
    locking: Locking,
    out: &mut O,
    err: &mut E,
) -> u8
    ensures status { result ≤ 1 }
    ensures done { result ≡ 0 → Answers R.File.remaining R.File.contents asked.now.request
        (O.contents out.old) (O.contents out.new) }
    ensures refused { result ≡ 1 → OnRefused R.File.remaining asked.now.request
        (O.contents out.old) (O.contents out.new) (out.new ≡ out.old) }
    ensures silent { result ≡ 0 → err.new ≡ err.old }
{
    match &asked.request {
        Request::Ls { image, path, json } => {
            let ls = Ls { path, json: *json };
            look(rt, image, locking, OverFiles(ls), out, err)
        }
        Request::Stat { image, path, json } => {
            let stat = Stat { path, json: *json };
            look(rt, image, locking, OverFiles(stat), out, err)
        }
        Request::Tree { image, path, json } => {
            let paths = Paths { path, json: *json };
            look(rt, image, locking, InTree(paths), out, err)
        }
        Request::Cat { image, path } => look(rt, image, locking, OverFiles(Cat { path }), out, err),
        Request::Get {
            image,
            path,
            file,
            all,
        } => get(rt, image, locking, path, file, *all, out, err),
        Request::Put {
            image,
            file,
            path,
            sync,
            no_sync,
        } => perform(
            NAME,
            rt,
            PutFile {
                image,
                file,
                path,
                sync: *sync,
                last: !*no_sync,
                locking,
                holder: Keeper::new(rt, locking),
            },
            out,
            err,
        ),
        Request::PutFolder {
            image,
            folder,
            path,
        } => {
            let put = PutFolder {
                image,
                folder,
                path,
                holder: Keeper::new(rt, locking),
            };
            perform(NAME, rt, put, out, err)
        }
        Request::Rm {
            image,
            path,
            all,
            sync,
            no_sync,
        } => { remove(rt, image, locking, path, *all, *sync, *no_sync, out, err) }
        Request::Mv {
            image,
            from,
            to,
            sync,
            no_sync,
        } => {
            let over = OverTree {
                change: Rename { from, to },
                last: !*no_sync,
            };
            change(rt, image, locking, *sync, over, out, err)
        }
        Request::Cp {
            image,
            from,
            to,
            sync,
            no_sync,
        } => {
            let copy = CopyFile {
                image,
                from,
                to,
                sync: *sync,
                last: !*no_sync,
                locking,
                holder: Keeper::new(rt, locking),
            };
            perform(NAME, rt, copy, out, err)
        }
        Request::Ln {
            image,
            path,
            into,
            sync,
            no_sync,
        } => {
            let over = OverTree {
                change: Link { path, into },
                last: !*no_sync,
            };
            change(rt, image, locking, *sync, over, out, err)
        }
        Request::Mkdir {
            image,
            path,
            parents,
            sync,
            no_sync,
        } => {
            make_directory(
                rt, image, locking, path, *parents, *sync, *no_sync, out, err,
            )
        }
        Request::Rmdir {
            image,
            path,
            sync,
            no_sync,
        } => {
            let over = OverTree {
                change: RemoveDirectory { path },
                last: !*no_sync,
            };
            change(rt, image, locking, *sync, over, out, err)
        }
        Request::Check { image, json } => {
            let counts = Counts { json: *json };
            look(rt, image, locking, counts, out, err)
        }
        Request::Recount {
            image,
            sync,
            no_sync,
        } => {
            let last = !*no_sync;
            change(rt, image, locking, *sync, Recount { last }, out, err)
        }
        Request::Mkfs {
            image,
            size,
            ninodes,
            files,
            no_sync,
        } => {
            let making = Making {
                form: Form::One,
                size: *size,
                ninodes: *ninodes,
                sync: !*no_sync,
            };
            make(rt, image, making, files.as_slice(), locking, out, err)
        }
    }
}

// Makes a directory, or each of a path that isn't there.
fn make_directory<R: Locks + AllocGlobal, O: Write, E: Write>(
    rt: &R,
    image: &str,
    locking: Locking,
    path: &str,
    parents: bool,
    sync: bool,
    no_sync: bool,
    out: &mut O,
    err: &mut E,
) -> u8
    ensures status { result ≤ 1 }
    ensures done { result ≡ 0 → Makes R.File.remaining parents path.now sync no_sync
        (O.contents out.old) (O.contents out.new) }
    ensures refused { result ≡ 1 → MakesNot R.File.remaining parents path.now sync no_sync
        (out.new ≡ out.old) }
    ensures silent { result ≡ 0 → err.new ≡ err.old }
{
    let last = !no_sync;
    if parents {
        let change_all = MakeDirectories { path };
        return change(
            rt,
            image,
            locking,
            sync,
            OverTree {
                change: change_all,
                last,
            },
            out,
            err,
        );
    }
    let change_one = MakeDirectory { path };
    change(
        rt,
        image,
        locking,
        sync,
        OverTree {
            change: change_one,
            last,
        },
        out,
        err,
    )
}

// Removes a name of a file, or a directory with all below it.
fn remove<R: Locks + AllocGlobal, O: Write, E: Write>(
    rt: &R,
    image: &str,
    locking: Locking,
    path: &str,
    all: bool,
    sync: bool,
    no_sync: bool,
    out: &mut O,
    err: &mut E,
) -> u8
    ensures status { result ≤ 1 }
    ensures done { result ≡ 0 → Removes R.File.remaining all path.now sync no_sync
        (O.contents out.old) (O.contents out.new) }
    ensures refused { result ≡ 1 → RemovesNot R.File.remaining all path.now sync no_sync
        (out.new ≡ out.old) }
    ensures silent { result ≡ 0 → err.new ≡ err.old }
{
    let last = !no_sync;
    if all {
        let change_all = RemoveAll { path };
        return change(
            rt,
            image,
            locking,
            sync,
            OverTree {
                change: change_all,
                last,
            },
            out,
            err,
        );
    }
    let change_one = Remove { path };
    change(
        rt,
        image,
        locking,
        sync,
        OverTree {
            change: change_one,
            last,
        },
        out,
        err,
    )
}

// Copies a file, or a directory with all below it.
fn get<R: Locks + AllocGlobal, O: Write, E: Write>(
    rt: &R,
    image: &str,
    locking: Locking,
    path: &str,
    file: &str,
    all: bool,
    out: &mut O,
    err: &mut E,
) -> u8
    ensures status { result ≤ 1 }
    ensures done { result ≡ 0 → Gets R.File.remaining R.File.contents all path.now
        (O.contents out.old) (O.contents out.new) }
    ensures refused { result ≡ 1 → GetsNot R.File.remaining all path.now (out.new ≡ out.old) }
    ensures silent { result ≡ 0 → err.new ≡ err.old }
{
    if all {
        let folder = file;
        return perform(
            NAME,
            rt,
            GetAll {
                image,
                locking,
                path,
                folder,
            },
            out,
            err,
        );
    }
    let get = Get {
        image,
        locking,
        path,
        file,
    };
    perform(NAME, rt, get, out, err)
}

// Makes an image with files.
fn make<R: Locks + AllocGlobal, O: Write, E: Write>(
    rt: &R,
    image: &str,
    making: Making,
    files: &[&str],
    locking: Locking,
    out: &mut O,
    err: &mut E,
) -> u8
    ensures status { result ≤ 1 }
    ensures done { result ≡ 0 → IsMadeWith ⟦<FileDisk<R::File> as Disk>⟧ making
        (map (λ file. file.now) files.now) (O.contents out.old) (O.contents out.new) }
    ensures refused { result ≡ 1 → (r : SomeMkfsRefusal)
        × IsNotMadeWith ⟦<FileDisk<R::File> as Disk>⟧ making (map (λ file. file.now) files.now)
        (out.new ≡ out.old) r }
    ensures silent { result ≡ 0 → err.new ≡ err.old }
{
    let mkfs = Mkfs {
        image,
        making,
        files,
        holder: Keeper::new(rt, locking),
    };
    perform(NAME, rt, mkfs, out, err)
}
