//! Which children of a split are still open, by their slacks.

ghost use Rattle.std.specs.Prelude.{◌≡◌, ◌≤◌, ◌≤ℤ◌, ◌↔◌, IsTrue};
ghost use Rattle.unimodular_cone.specs.OpenChildren.{AreAtLeast, IsChoiceOf};

/// The children of a split that are made, at a bound: those that are not closed, and both where the mediant's value is below the
/// bound, since the bound of a search then falls.
#[derive(Clone, Copy)]
pub enum OpenChildren {
    /// The mediant's value is below the bound: both are made. In each other case it is at least the bound.
    Below,
    /// Neither is closed: both are made.
    Both,
    /// Child 1 is closed: child 0 alone is made.
    First,
    /// Child 0 is closed: child 1 alone is made.
    Second,
    /// Both are closed: none is made.
    Neither,
}

/// What a split makes, at a bound.
#[derive(Clone, Copy)]
pub struct Opened {
    /// Which children are made.
    pub made: OpenChildren,
    /// Whether the mediant's value is the bound.
    pub attains: bool,
}

/// Whether the first n numbers are at least a bound.
#[inline(always)]
pub fn are_at_least(numbers: &[i64; 8], n: u8, bound: i64) -> bool
    requires { n ≤ 8 }
    ensures { IsTrue result ↔ AreAtLeast n numbers.now bound }
{
    for k in 0..n {
        if numbers[usize::from(k)] < bound {
            return false;
        }
    }
    true
}

/// Whether the mediant's value is the bound.
#[inline(always)]
pub fn is_at(value: i64, bound: i64) -> bool
    ensures { IsTrue result ↔ (value ≡ bound) }
{
    value == bound
}

/// Which children are made, by the mediant's value and the slacks of child 0 and of child 1.
#[inline(always)]
pub fn open_of(value: i64, first: &[i64; 8], second: &[i64; 8], n: u8, bound: i64) -> OpenChildren
    requires { n ≤ 8 }
    ensures { IsChoiceOf (bound ≤ℤ value) (AreAtLeast n first.now bound) (AreAtLeast n second.now bound) result }
{
    if value < bound {
        return OpenChildren::Below;
    }
    match (
        are_at_least(first, n, bound),
        are_at_least(second, n, bound),
    ) {
        (false, false) => OpenChildren::Both,
        (false, true) => OpenChildren::First,
        (true, false) => OpenChildren::Second,
        (true, true) => OpenChildren::Neither,
    }
}
