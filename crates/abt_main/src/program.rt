//! What the program does, up to the number that it ends with.

ghost use Rattle.dcsp_script.specs.Outsides.{world};
ghost use Rattle.abt_main.specs.Ending.{EndsRun, EndsWith};

use abt_command::{Status, run_command};
use abt_files::{OpenFiles, RealFolder, RealSink, Stream};
use dcsp_common::Memory;
use dcsp_outside::{Folder, Sink};
use dcsp_script::{Outside, say};
use std::alloc::Global;
use std::cell::RefCell;
use std::env;
use std::fs::File;
use std::io::ErrorKind;
use std::os::fd::AsRawFd;

/// Runs the command that the program's words ask for, in the folder and with the streams that it was started
/// with, and gives the number that it ends with: that of the status of a run over an outside with which nothing was
/// done before, or of want of memory for the words.
// The proof is written out: a search would try all that a run promises.
#[tactic(none)]
pub fn run(rt: HostRuntime) -> u8
    ensures { EndsWith result }
{
    let alloc = rt.alloc();
    // A stream that was closed before the program began leaves its number free, and no file may take it: what is put
    // on the stream would go there. So the null device takes such numbers, and a put fails.
    let _held = [closed_number(&rt), closed_number(&rt), closed_number(&rt)];
    let output = Stream::Output(rt.stdout());
    let errors = Stream::Error(rt.stderr());
    let words = words_given(alloc, &rt);
    let open = RefCell::new(OpenFiles::new(alloc, rt));
    let folder = RealFolder::new(alloc, &open);
    let out = RealSink::new(output, &open);
    let mut err = RealSink::new(errors, &open);
    let mut outside = Outside { folder, out };
    let code = run_given(alloc, words, &mut outside, &mut err);
    // An answer lets nothing wait; so only a command that was refused, and has told it, has more to write.
    let _ = outside.out.write_waiting();
    code
}

/// Runs the command that these words ask for, and gives the number that the program ends with; where there was no
/// memory for the words, tells that on `err`, does nothing else, and gives the number for want of memory.
#[tactic(none)]
pub fn run_given<F: Folder, S: Sink>(
    alloc: Global,
    words: Result<Vec<String>, Memory>,
    outside: &mut Outside<F, S>,
    err: &mut S,
) -> u8
    ensures { EndsRun words (world F.place S.stream outside.old) (world F.place S.stream outside.new)
        (S.stream err.old) (S.stream err.new) result }
{
    match words {
        Ok(words) => run_command(alloc, &words, outside, err).code(),
        Err(_) => {
            say(err, b"abt: memory\n");
            Status::Memory.code()
        }
    }
}

/// The null device, where it took the number of a standard stream that is closed.
fn closed_number(rt: &HostRuntime) -> Option<File> {
    match File::open(rt, "/dev/null") {
        Ok(file) if file.as_raw_fd() <= 2 => Some(file),
        _ => None,
    }
}

/// The words after the program's name.
///
/// Where some word is not UTF-8 there are none, which no line of the program is either.
fn words_given(alloc: Global, rt: &HostRuntime) -> Result<Vec<String>, Memory> {
    let mut words = Vec::new(alloc);
    match env::args(rt) {
        Ok(given) => {
            for word in given.skip(1) {
                if words.push(word).is_err() {
                    return Err(Memory);
                }
            }
            Ok(words)
        }
        Err(error) if error.kind() == ErrorKind::OutOfMemory => Err(Memory),
        Err(_) => Ok(words),
    }
}
