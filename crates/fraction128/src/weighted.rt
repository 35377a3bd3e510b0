//! Vectors with weights, and lists of them.

ghost use Rattle.std.specs.Prelude.{◌≡◌, ◌<◌, List, [], ◌∷◌, ◌++◌, length, OnOk, OnErr, Some, slice_get};
ghost use Rattle.exact_forms.specs.Signs.{IsPositive};
ghost use Rattle.exact_forms.specs.Factors.{WeightedVector};
ghost use Rattle.fraction128.specs.Terms.{IsTermList, IsAfter};

use crate::Fraction;
use std::alloc::{AllocError, Global};
use std::marker::Model;
use symmetric_matrix::IntVector;

/// A vector with its weight, as a summand weight · xxᵗ of a factorization.
#[derive(Drop)]
pub struct Term {
    pub weight: Fraction,
    pub vector: IntVector,
}

impl Model for Term {
    ghost Value = { WeightedVector };

    ghost view = { λ t. record { weight = t.weight; vector = t.vector } };
}

/// A list of terms: the weights are positive, and the vectors strictly increasing in lexicographic order.
///
/// Contracts see the list of weighted vectors. Indices count from 0.
#[derive(Drop)]
pub struct Terms {
    items: Vec<Term>,
}

impl Model for Terms {
    ghost Value = { List WeightedVector };

    ghost view = { λ l. l.items.items };

    ghost invariant = { λ l. IsTermList l.items.items };
}

impl Terms {
    /// The empty list. It takes no memory.
    pub fn new(alloc: Global) -> Terms
        ensures { result ≡ [] }
    {
        Terms {
            items: Vec::new(alloc),
        }
    }

    /// Appends a term whose weight is positive and whose vector is greater than the last one.
    ///
    /// It is refused for want of memory alone, and then the list is as before.
    pub fn push(&mut self, term: Term) -> Result<(), AllocError>
        requires positive { IsPositive term.weight }
        requires greater { IsAfter self.old term.vector }
        ensures ok { OnOk result (self.new ≡ self.old ++ term ∷ []) }
        ensures err { OnErr result (self.new ≡ self.old) }
    {
        self.items.push(term)?;
        Ok(())
    }

    /// How many terms there are.
    pub fn len(&self) -> usize
        ensures value { result ≡ length self.now }
        ensures list { IsTermList self.now }
    {
        self.items.len()
    }

    /// The term at an index.
    pub fn at(&self, k: usize) -> &Term
        requires { k < length self.now }
        ensures { slice_get self.now k ≡ Some result.now }
    {
        &self.items[k]
    }
}

#[cfg(test)]
mod tests {
    use super::*;

    #[test]
    fn terms_are_kept_in_order(rt: HostRuntime) {
        let alloc = rt.alloc();
        let mut terms = Terms::new(alloc);
        let weight = Fraction::whole(3);
        assert!(&rt; 0 < weight.num());
        let term = Term {
            weight,
            vector: IntVector::from_slice(alloc, &[0, 2]),
        };
        assert!(&rt; terms.push(term).is_ok());
        assert_eq!(&rt; terms.len(), 1);
        assert!(&rt; terms.at(0).weight == Fraction::whole(3));
        assert_eq!(&rt; terms.at(0).vector.at(2), 2);
    }
}
