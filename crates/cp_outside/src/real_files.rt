//! The files of the system.

ghost use Rattle.std.specs.Prelude.{◌≡◌, ℕ, ◌≤◌, List, [], None, length};
ghost use Rattle.cp_outside.specs.FailedNames.{times_failed};
ghost use Rattle.cp_outside.specs.Reads.{OnWhole, UnlessReadFailed, UnlessWhole};

use crate::failed_names::add_failed;
use crate::files::{Files, ReadEnd};
use std::alloc::Global;
use std::fs;
use std::io::{ErrorKind, Read};
use std::rt::Files as FileSystem;

/// The files of the system. It tells no content. It is the trusted edge: that a real file behaves as
/// [`Files`] says is not proved.
#[derive(Drop)]
pub struct RealFiles<'a, R> {
    rt: &'a R,
    alloc: Global,
    // The names of the reads that failed, one for each.
    failed: Vec<String>,
}

impl<'a, R: FileSystem> RealFiles<'a, R> {
    /// The files that this runtime reaches. It takes no memory.
    pub fn new(rt: &'a R, alloc: Global) -> RealFiles<'a, R>
        ensures { (name : List ℕ) → ⟦<RealFiles<'a, R> as Files>⟧.faults result name ≡ 0 }
    {
        RealFiles {
            rt,
            alloc,
            failed: Vec::new(alloc),
        }
    }
}

impl<'a, R: FileSystem> Files for RealFiles<'a, R> {
    ghost told = { λ _ _. None };

    ghost faults = { λ files name. times_failed files.failed.items name };

    fn read_file(&mut self, name: &str, into: &mut Vec<u8>, limit: usize) -> ReadEnd {
        // The name stands on the list before the read, so that no want of memory hides a failure.
        if add_failed(self.alloc, &mut self.failed, name).is_err() {
            into.clear();
            return ReadEnd::OutOfMemory;
        }
        let end = read_named(self.rt, name, into, limit);
        if end == ReadEnd::Failed {
            return end;
        }
        self.failed.pop();
        end
    }
}

// Reads the file of this name.
fn read_named<R: FileSystem>(rt: &R, name: &str, into: &mut Vec<u8>, limit: usize) -> ReadEnd
    ensures within_limit { OnWhole result (length into.new.items ≤ limit) }
    ensures empty { UnlessWhole result (into.new.items ≡ []) }
{
    into.clear();
    let end = match fs::open(rt, name) {
        Ok(mut file) => read_to_end(&mut file, into, limit),
        Err(_) => ReadEnd::Failed,
    };
    if end != ReadEnd::Whole {
        into.clear();
    }
    end
}

// How many bytes are asked for in one read.
const PIECE: usize = 16384;

// Reads what is left of the file behind `into`, if it is at most `limit` bytes with those.
fn read_to_end<F: Read>(file: &mut F, into: &mut Vec<u8>, limit: usize) -> ReadEnd
    requires { length into.old.items ≤ limit }
    ensures { OnWhole result (length into.new.items ≤ limit) }
{
    let mut piece = [0u8; PIECE];
    for _ in 0..u64::MAX {
        match file.read(&mut piece) {
            Ok(0) => return ReadEnd::Whole,
            Ok(count) => {
                if count > limit - into.len() {
                    return ReadEnd::TooLong;
                }
                if into.extend_from_slice(&piece[..count]).is_err() {
                    return ReadEnd::OutOfMemory;
                }
            }
            Err(error) if error.kind() == ErrorKind::Interrupted => {}
            Err(_) => return ReadEnd::Failed,
        }
    }
    ReadEnd::Failed
}
