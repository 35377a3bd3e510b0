//! What holds of the answers of searches. The call does nothing: its contract is the law.

ghost use Rattle.serial_search.specs.Values.{ValueIsOfLeast};

/// What `least_value_in` answers of a matrix and a limit is what `least` of a searcher answers of them, its list left out,
/// unless that is want of memory.
pub fn value_is_of_least()
    ensures { ValueIsOfLeast }
{}
