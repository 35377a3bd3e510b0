//! A pass on a deque that another worker owns.

ghost use Rattle.std.specs.Prelude.{◌≡◌, [], ◌∷◌, ◌++◌, MatchOption};
ghost use Rattle.crossbeam_deque.specs.Handles.{stealer_deque};
ghost use Rattle.cone_pool.specs.Lots.{IsStolenBy};

use crate::rule::{PathPass, Steals, Thief};
use crossbeam_deque::Steal;
use std::marker::Model;
use unimodular_cone::Path;

/// A pass on a deque that another worker owns. Contracts see which deque it is, and what was taken there by it.
#[derive(Drop)]
pub(crate) struct Token {
    pub(crate) pass: PathPass,
}

impl Model for Token {
    ghost use Rattle.std.specs.Prelude.{◌≡◌, false, None, []};
    ghost use Rattle.cone_pool.specs.Deques.{account_of};
    ghost use Rattle.cone_pool.specs.Lots.{Token};

    ghost Value = { Token };

    ghost view = { λ t. record { deque = (t.pass.rows, t.pass.heap); taken = (account_of t.pass).taken } };

    ghost invariant = { λ t. (t.pass.me.hand ≡ None)
        × (t.pass.me.spare ≡ None)
        × ((account_of t.pass).away ≡ false)
        × ((account_of t.pass).first ≡ false)
        × ((account_of t.pass).put ≡ []) };
}

impl Token {
    /// Takes the first path of the deque, if there is one and no other thread comes before.
    pub(crate) fn steal(&mut self, thief: &Thief) -> Option<Path>
        requires { self.old.deque ≡ stealer_deque thief.now }
        ensures { MatchOption result (self.new ≡ self.old) (λ path. IsStolenBy path self.old self.new) }
    {
        match thief.steal_as::<Steals>(&mut self.pass) {
            Steal::Success(path) => Some(path),
            Steal::Empty | Steal::Retry => None,
        }
    }
}
