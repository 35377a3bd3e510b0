//! What a worker of the machine has in hand.

ghost use Rattle.std.specs.Prelude.{◌≡◌, ◌≢◌};
ghost use Rattle.std.specs.Bool.{MatchBool};

use unimodular_cone::Path;

/// What a worker has in hand.
#[derive(Clone, Copy, Debug, PartialEq, Eq)]
pub enum Hand {
    /// Nothing.
    Empty,
    /// The path of a cone that was not offered yet.
    Taken(Path),
    /// The path of an offered cone, and the word that its offer noted.
    Offered(Path, u64),
}

impl Hand {
    /// Whether nothing is in hand.
    pub(crate) fn is_empty(&self) -> bool
        ensures { MatchBool result (self.now ≡ Hand.Empty) (self.now ≢ Hand.Empty) }
    {
        matches!(self, Hand::Empty)
    }
}
