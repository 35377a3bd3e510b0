//! Whatever searches.

ghost use Rattle.std.specs.Prelude.{◌≤◌};
ghost use Rattle.symmetric_matrix.specs.Symmetric.{entry};
ghost use Rattle.search_core.specs.Answers.{IsLeastAnswer, IsSignAnswer, LeastHolds, SignHolds};

use crate::answer::{Least, Sign};
use symmetric_matrix::SymInt;

/// Whatever searches the tree of a matrix's cones to a depth of at most 200. Each answer but `OutOfMemory` is exactly the
/// search's answer: the first of its six kinds that applies. It depends on the matrix and the depth alone.
pub trait Searcher {
    /// The least value at nonzero nonnegative integer vectors, and all vectors that attain it.
    fn least(&mut self, q: &SymInt, limit: u8) -> Least
        requires { limit ≤ 200 }
        ensures answer { IsLeastAnswer q.now.size (entry q.now) limit result }
        ensures holds { LeastHolds q.now.size (entry q.now) result };

    /// Whether a value at nonnegative vectors is below 0.
    fn sign(&mut self, q: &SymInt, limit: u8) -> Sign
        requires { limit ≤ 200 }
        ensures answer { IsSignAnswer q.now.size (entry q.now) limit result }
        ensures holds { SignHolds q.now.size (entry q.now) result };
}
