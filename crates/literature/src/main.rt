//! Answers the matrices in `data/`, which are copies of those of `examples/literature`, each as the program `cpfactor` would, and
//! prints each command line and status.
#![tactic(auto)]

use cp_outside::{RealFiles, RealSink};
use cpfactor_top::{OpenGate, run};
use std::alloc::AllocError;
use std::io::{self, Print};
use std::rt::Files as FileSystem;
use std::sync::Wait;
use std::thread::Threads;

/// What is asked of each matrix.
const COMMAND_LINES: [&str; 14] = [
    "solve horn_5.cpm",
    "solve nie_5.cpm",
    "solve sponsel_duer_5.cpm",
    "solve groetzner_duer_6.cpm",
    "solve berman_shaked_5.cpm",
    "solve jarre_schmallowsky_5.cpm",
    "solve jarre_schmallowsky_5.cpm --depth 200",
    "minimum lattice_a2.cpm",
    "minimum lattice_a3.cpm",
    "minimum lattice_a4.cpm",
    "minimum lattice_a5.cpm",
    "minimum lattice_a6.cpm",
    "minimum lattice_d4.cpm",
    "minimum lattice_d5.cpm",
];

fn main(rt: HostRuntime) -> io::Result<()> {
    for line in COMMAND_LINES {
        let number = answer(&rt, line)?;
        println!(rt; "# {line}: status {number}")?;
    }
    Ok(())
}

/// Answers a command line on standard output, and gives the number of its status.
fn answer<R>(rt: &R, line: &str) -> Result<u8, AllocError>
where
    R: Threads + Wait + Sync + FileSystem + Print + AllocGlobal,
{
    let mut words = Vec::new(rt.alloc());
    for word in line.split_whitespace() {
        words.push(String::from_str(rt.alloc(), word)?)?;
    }
    let mut files = RealFiles::new(rt, rt.alloc());
    let mut sink = RealSink::new(rt);
    Ok(
        run(rt, rt.alloc(), &words, &mut files, &mut sink, &OpenGate)
            .status
            .number(),
    )
}
