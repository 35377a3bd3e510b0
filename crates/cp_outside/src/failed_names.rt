//! The names of the reads that failed, one for each such read.

ghost use Rattle.std.specs.Prelude.{◌≡◌, ◌≢◌, ℕ, ◌+◌, ◌-◌, List, take, vec_len, OnOk, OnErr};
ghost use Rattle.cp_outside.specs.FailedNames.{times_failed};

use std::alloc::{AllocError, Global};

/// Adds a name. At an `Err` the names are as before.
#[tactic(auto, using(crate::proofs::FailedNameLaws::one_more_name))]
pub(crate) fn add_failed(
    alloc: Global,
    failed: &mut Vec<String>,
    name: &str,
) -> Result<(), AllocError>
    ensures once_more { OnOk result (times_failed failed.new.items name.now
        ≡ times_failed failed.old.items name.now + 1) }
    ensures others_stay { (other : List ℕ) → other ≢ name.now
        → times_failed failed.new.items other ≡ times_failed failed.old.items other }
    ensures behind_the_others { OnOk result (take (vec_len failed.new - 1) failed.new.items ≡ failed.old.items) }
    ensures refused { OnErr result (failed.new.items ≡ failed.old.items) }
{
    let copy = String::from_str(alloc, name)?;
    failed.push(copy)?;
    Ok(())
}
