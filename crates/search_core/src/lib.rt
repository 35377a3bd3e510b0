//! The core of a search: the fate of a cone, fair lists of judgements, and what they settle to.
#![tactic(auto)]

mod answer;
mod attaining;
mod descent;
mod event;
mod fate;
mod hand;
mod judging;
mod keeping;
mod key_set;
mod law;
mod lowering;
mod machine;
#[cfg(test)]
mod machine_tests;
mod next;
mod noting;
mod scan;
mod searcher;
mod settling;
#[cfg(test)]
mod tests;
mod way;
mod words;

pub use answer::{Least, Sign};
pub use event::{Event, Stepped};
pub use fate::{Fate, Judged};
pub use judging::{judge, judgement};
pub use keeping::keep_fate;
pub use key_set::{Key, KeySet};
pub use law::{
    at_most_one_fate, code_is_of_the_path, every_run_is_fair, fate_is_of_the_path, runs_are_fair,
};
pub use lowering::lowering_fate;
pub use machine::Machine;
pub use next::{Next, keep_next, lowering_next};
pub use noting::{NewGenerators, note_new};
pub use searcher::Searcher;
pub use settling::{
    settle_least, settle_least_noted, settle_least_part, settle_sign, settle_sign_part,
};
pub use unimodular_cone::Mode;
pub use words::{bound_under, code, least_diagonal, start_word};
