//! Unimodular cones: paths, cones by their generators and Gram entries, the pair rule and the bound test, and what a
//! search over their tree answers.
#![tactic(auto)]

mod bound_test;
mod cone;
mod cone_read;
mod cone_tests;
mod law;
mod mediant;
mod mode;
mod narrow;
mod narrow_bound;
mod narrow_numbers;
mod narrow_pair;
mod narrow_sums;
mod open_children;
mod pair_rule;
mod path;
mod place;
mod refusal;
mod root_numbers;
mod slack_cone;
mod slack_numbers;

pub use bound_test::{closed, least_value};
pub use cone::{Cone, at_path, child, root};
pub use cone_read::ConeRead;
pub use cone_tests::{ByReading, ConeTests};
pub use law::{
    at_most_one_answer, at_most_one_final_bound, at_most_one_first_low, at_most_one_first_open,
    children_cover, closed_bounds, copositive_holds, found_is_minimum, low_has_its_value,
    pair_is_first_least,
};
pub use mediant::children_fit;
pub use mode::Mode;
pub use narrow::{NarrowCone, narrow_root};
pub use open_children::{OpenChildren, Opened};
pub use pair_rule::pair;
pub use path::Path;
pub use refusal::{ConeFail, WideAt, WideEntry};
pub use slack_cone::SlackCone;
