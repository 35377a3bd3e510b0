//! Whole runs, through the call that the program makes.

use crate::files::one_file;
use cp_outside::{Files, MemSink};
use cpfactor_top::{Ended, OpenGate, run};
use std::alloc::{AllocError, Global};
use std::sync::Wait;
use std::thread::Threads;

/// The words of a line. It is refused for want of memory alone.
pub fn words_of(alloc: Global, line: &str) -> Result<Vec<String>, AllocError> {
    let mut words = Vec::new(alloc);
    for word in line.split_whitespace() {
        words.push(String::from_str(alloc, word)?)?;
    }
    Ok(words)
}

/// What is put behind a command line for a row that is the same by 1, 2, 4 and 8 workers.
pub const WORKERS: [&str; 5] = [
    "",
    " --workers 1",
    " --workers 2",
    " --workers 4",
    " --workers 8",
];

/// How a command line ends over these files; what it writes goes to the sink. It is refused where there is no memory for the
/// words. Every row's run is made here.
pub fn ended_over<R: Threads + Wait + Sync + AllocGlobal, F: Files>(
    rt: &R,
    line: &str,
    files: &mut F,
    sink: &mut MemSink,
) -> Result<Ended, AllocError> {
    let words = words_of(rt.alloc(), line)?;
    Ok(run(rt, rt.alloc(), &words, files, sink, &OpenGate))
}

/// The exit status of a command line over these files; what it writes goes to the sink. It is refused where there is no
/// memory for the words.
pub fn status_over<R: Threads + Wait + Sync + AllocGlobal, F: Files>(
    rt: &R,
    line: &str,
    files: &mut F,
    sink: &mut MemSink,
) -> Result<u8, AllocError> {
    Ok(ended_over(rt, line, files, sink)?.status.number())
}

/// The exit status of a command line where the file `a` has these bytes, and no other file is there; what it writes goes to
/// the sink. It is refused where there is no memory for the words or the file.
pub fn status_after<R: Threads + Wait + Sync + AllocGlobal>(
    rt: &R,
    line: &str,
    bytes: &[u8],
    sink: &mut MemSink,
) -> Result<u8, AllocError> {
    let mut files = one_file(rt.alloc(), bytes)?;
    status_over(rt, line, &mut files, sink)
}
