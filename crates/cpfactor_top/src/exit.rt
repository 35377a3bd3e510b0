//! The exit status of the program.

ghost use Rattle.std.specs.Prelude.{◌≡◌};
ghost use Rattle.cpfactor_lines.specs.Requests.{texts};
ghost use Rattle.cpfactor_lines.specs.Sinks.{sink_shown};
ghost use Rattle.cpfactor_top.specs.declared.ended.Ended.{Ended as an_ending};
ghost use Rattle.cpfactor_top.specs.Causes.{HasStatus, status_number};
ghost use Rattle.cpfactor_top.specs.Outcomes.{EndsBy};
ghost use Rattle.cpfactor_top.specs.Files.{file_shown};
ghost use Rattle.cpfactor_top.specs.Answers.{IsAnswer};

use crate::ended::Status;
use crate::program::run;
use cone_pool::{Gate, OpenGate};
use cp_outside::{Files, RealFiles, RealSink, Sink};
use std::alloc::Global;
use std::rt::{Env, Files as FileSystem};
use std::sync::Wait;
use std::thread::Threads;
use std::{env, io};

/// The exit status where the words of the command line can't be had, other than for want of memory.
const NO_WORDS: u8 = 16;

/// Answers the words of the command line on standard output, its workers passing a gate that is open, and gives the exit status: the number of the status with which
/// `run` ends; 9 where there was no memory for the words, and 16 where they can't be had otherwise.
pub fn exit_status<R: Threads + Wait + Sync + Env + FileSystem + Print + AllocGlobal>(
    rt: &R,
) -> u8 {
    match words(rt) {
        Ok(words) => {
            let mut files = RealFiles::new(rt, rt.alloc());
            let mut sink = RealSink::new(rt);
            exit_number(rt, rt.alloc(), &words, &mut files, &mut sink, &OpenGate)
        }
        Err(error) if error.kind() == io::ErrorKind::OutOfMemory => Status::Memory.number(),
        Err(_) => NO_WORDS,
    }
}

/// Does what these words ask for, and gives the number of the status with which it ended.
pub fn exit_number<R: Threads + Wait + Sync, F: Files, K: Sink>(
    rt: &R,
    alloc: Global,
    words: &[String],
    files: &mut F,
    sink: &mut K,
    gate: &(dyn Gate + Sync),
) -> u8
    ensures { (ended : an_ending) × (result ≡ status_number ended.status) × HasStatus ended
        × EndsBy (IsAnswer (texts words.now) (file_shown F.Files files.old files.new))
        (sink_shown K.Sink sink.old sink.new) ended }
{
    run(rt, alloc, words, files, sink, gate).status.number()
}

/// The words after the program's name.
fn words<R: Env + AllocGlobal>(rt: &R) -> io::Result<Vec<String>> {
    let mut words = Vec::new(rt.alloc());
    for word in env::args(rt)?.skip(1) {
        words.push(word)?;
    }
    Ok(words)
}
