//! Serves the files of an image of the xv6 file system to Linux, which asks for them by FUSE. The
//! descriptor of the mount is the standard input and output; the script `xvmount` mounts it, and
//! starts this program. Its words are the path of the image's file, and the options of the mount
//! with commas between.
#![tactic(auto)]

mod images;
mod looping;
mod options;
mod refusal;
mod syncing;

use crate::images::disk_in_memory;
use crate::looping::serve_disk;
use crate::options::{Options, read_options};
use crate::syncing::Device;
use blocks::FileFault;
use cli::arguments;
use cmd::{Access, disk_over, end, open_for, open_image};
use std::fs::File;
use std::io::Write;
use std::process::ExitCode;

/// The program's name, with which the line of each refusal begins.
const NAME: &str = "xvmount";

const USAGE: &[u8] = b"usage: ./xvmount IMAGE FOLDER [-o OPTIONS], as ./xvmount --help says\n";

fn main(rt: HostRuntime) -> ExitCode {
    let mut err = rt.stderr();
    let Ok(words) = arguments::given(&rt) else {
        let _unwritten = err.write_all(USAGE);
        return ExitCode::from(2);
    };
    let [image, options] = words.as_slice() else {
        let _unwritten = err.write_all(USAGE);
        return ExitCode::from(2);
    };
    let status = match read_options(options.as_str()) {
        Ok(options) => serve_image(&rt, image.as_str(), options, &mut err),
        Err(fault) => {
            let _unwritten = writeln!(err, "xvmount: {fault}");
            2
        }
    };
    ExitCode::from(status)
}

// Serves the image in the file at this path, up to the end of the mount. The exit status.
fn serve_image<E: Write>(rt: &HostRuntime, image: &str, options: Options, err: &mut E) -> u8 {
    if options.read_only {
        return serve_copy(rt, image, options, err);
    }
    let access = Access::Change {
        sync: options.sync,
        locking: options.locking,
    };
    match open_image(rt, image, access) {
        Ok(file) => serve_file(rt, file, options, err),
        Err(fault) => end::<FileFault, E>(NAME, Err(fault), err),
    }
}

// Serves the image in a file that was opened. Where each commit syncs it, nothing else has to.
fn serve_file<E: Write>(rt: &HostRuntime, file: File, options: Options, err: &mut E) -> u8 {
    match disk_over(rt.alloc(), &file, options.sync) {
        Ok(disk) => {
            let mut device = if options.sync {
                Device::nowhere()
            } else {
                Device::of(file)
            };
            let ended = serve_disk(
                rt,
                rt.alloc(),
                disk,
                &mut device,
                options,
                &mut rt.stdin(),
                &mut rt.stdout(),
            );
            end(NAME, ended, err)
        }
        Err(fault) => end::<FileFault, E>(NAME, Err(fault), err),
    }
}

// Serves a copy of it in memory: the file is only read.
fn serve_copy<E: Write>(rt: &HostRuntime, image: &str, options: Options, err: &mut E) -> u8 {
    let mut disk = match open_for(rt, image, Access::Look(options.locking)) {
        Ok(disk) => disk,
        Err(fault) => return end::<FileFault, E>(NAME, Err(fault), err),
    };
    match disk_in_memory(rt.alloc(), &mut disk) {
        Ok(copy) => {
            let ended = serve_disk(
                rt,
                rt.alloc(),
                copy,
                &mut Device::<File>::nowhere(),
                options,
                &mut rt.stdin(),
                &mut rt.stdout(),
            );
            end(NAME, ended, err)
        }
        Err(_refused) => end::<FileFault, E>(NAME, Err(FileFault::NoMemory), err),
    }
}
