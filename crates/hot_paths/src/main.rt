//! The program `hot_paths`: it repeats one operation and prints how many times it did, to be run under `time`.
#![tactic(auto)]

mod command;
mod descending;
mod draws;
mod exchanging;
mod folding;
mod matrices;
#[cfg(test)]
mod tests;

use command::{Command, Operation};
use descending::cones;
use exchanging::exchanges;
use folding::{additions, products};
use std::alloc::{AllocError, Global};
use std::process::ExitCode;
use std::rt::Env;
use std::{env, io};

/// The exit status where the words are no command line.
const NO_COMMAND: u8 = 2;

/// Does what the words of the command line ask for, and prints a line.
fn main(rt: HostRuntime) -> io::Result<ExitCode> {
    let words = words(&rt)?;
    let Some(command) = Command::from_words(&words) else {
        println!(rt; "usage: hot_paths exchanges|additions|products|cones N")?;
        return Ok(ExitCode::from(NO_COMMAND));
    };
    let line = run(rt.alloc(), &command)?;
    println!(rt; "{line}")?;
    Ok(ExitCode::SUCCESS)
}

/// The words after the program's name.
fn words<R: Env + AllocGlobal>(rt: &R) -> io::Result<Vec<String>> {
    let mut words = Vec::new(rt.alloc());
    for word in env::args(rt)?.skip(1) {
        words.push(word)?;
    }
    Ok(words)
}

/// Repeats the command's operation. The line says how many times it was done.
fn run(alloc: Global, command: &Command) -> Result<String, AllocError> {
    let count = command.count;
    match command.operation {
        Operation::Exchanges => {
            let made = exchanges(alloc, count)?;
            format!(in alloc; "exchanges {made}")
        }
        Operation::Additions => {
            let folded = additions(alloc, count)?;
            format!(in alloc; "additions {folded}")
        }
        Operation::Products => {
            let folded = products(alloc, count)?;
            format!(in alloc; "products {folded}")
        }
        Operation::Cones => {
            let made = cones(alloc, count)?;
            format!(in alloc; "cones {made}")
        }
    }
}
