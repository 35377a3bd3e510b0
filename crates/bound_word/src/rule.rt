//! What the steps keep, and what each tells its thread.

use atomic_table::{Join, Play, Split, TableRule};

/// What a thread knows. No value of it is made.
pub struct View {
    /// The least code that it offered.
    pub given: u64,
    /// The last word that it was told.
    pub told: u64,
    /// Whether it is the view of the seat that was made with the table.
    pub first: bool,
    /// How many other views are in use, if it is the first.
    pub out: u64,
    /// What `out` was before the last join; 1 where there was none.
    pub out_before: u64,
    /// Whether it was joined into another.
    pub away: bool,
}

/// The rule, which reads the word that the table was made at.
pub struct Falls;

impl TableRule<(), View, u64> for Falls {
    ghost use Rattle.bound_word.specs.Falling.{IsFallingWord, opening_view};

    ghost holds = { λ start s. IsFallingWord start s.words s.views };

    ghost first = { opening_view };
}

/// An offer lowers the word to the code, and its thread is told the lesser of both.
pub struct Offers;

impl Play<(), View> for Offers {
    ghost use Rattle.std.specs.Prelude.{◌≡◌};
    ghost use Rattle.bound_word.specs.Falling.{IsWordOffer};

    ghost then = { λ s v found w. IsWordOffer s.first v.0 found w.0 × (w.1 ≡ v.1) };
}

/// A step on the count tells nothing.
pub struct Counts;

impl Play<(), View> for Counts {
    ghost use Rattle.std.specs.Prelude.{◌≡◌};

    ghost then = { λ s v found w. w ≡ v };
}

/// A look at the count tells that another view was in use before the last join.
pub struct Looks;

impl Play<(), View> for Looks {
    ghost use Rattle.std.specs.Prelude.{◌≡◌, ◌≤◌};

    ghost then = { λ s v found w. (w ≡ v) × (1 ≤ v.0.out_before) };
}

/// A seat for another thread.
pub struct Another;

impl Split<View> for Another {
    ghost use Rattle.bound_word.specs.Falling.{with_one_more, another_view};

    ghost left = { with_one_more };

    ghost right = { another_view };
}

/// A seat comes back.
pub struct Back;

impl Join<View> for Back {
    ghost use Rattle.bound_word.specs.Falling.{joined_view, away_view};

    ghost both = { joined_view };

    ghost spent = { away_view };
}
