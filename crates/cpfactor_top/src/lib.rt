//! The program's commands, from the words of the command line to the text of the answer.
#![tactic(auto)]

mod checking;
mod crew;
mod ended;
mod exit;
mod found;
mod given;
mod law;
mod program;
mod refusal;
mod sampling;
mod searching;
mod solving;
mod walk_answer;

pub use cone_pool::{Gate, OpenGate};
pub use cpfactor_lines::{Command, Usage, read_words, words_are_read_one_way};
pub use ended::{Cause, Ended, Status};
pub use exit::{exit_number, exit_status};
pub use law::check_accepts_what_solve_wrote;
pub use perfect_walk::{Journal, Limits, Owed, Step, Visit};
pub use program::{check_run, run};
pub use searching::minimum_alone;
pub use solving::solve_alone;
