//! The program `cpfactor`, as it ends at a faulty command line.
#![tactic(auto)]

use cpfactor_top::exit_status;
use std::process::ExitCode;

/// Answers the words of the command line on standard output, and ends with the status of the answer.
fn main(rt: HostRuntime) -> ExitCode {
    ExitCode::from(exit_status(&rt))
}
