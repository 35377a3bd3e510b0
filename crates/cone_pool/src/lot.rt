//! A worker's deque, and its passes on the others'.

ghost use Rattle.std.specs.Prelude.{◌≡◌, ◌<◌, [], length, IfOk, MatchOption, MatchResult, slice_index_or};
ghost use Rattle.crossbeam_deque.specs.Handles.{stealer_deque};
ghost use Rattle.cone_pool.specs.Lots.{new_lot, new_token, IsPushed, IsPopped, IsNoMoreThanPut, IsEmptied, IsStolenAt, lot_with_one_out, lot_holding, absorbed_lot};

use crate::rule::{Another, Back, Owner, Pops, Puts, Thief};
use crate::token::Token;
use std::alloc::{AllocError, Global};
use std::marker::Model;
use unimodular_cone::Path;

/// The slots of a new deque.
const SLOTS: usize = 64;

/// A worker's own deque, and its passes on the others'.
#[derive(Drop)]
pub(crate) struct Lot {
    own: Owner,
    tokens: Vec<Token>,
}

impl Model for Lot {
    ghost use Rattle.std.specs.Prelude.{◌≡◌, true, false};
    ghost use Rattle.crossbeam_deque.specs.Handles.{worker_deque, worker_view, worker_flavor};
    ghost use Rattle.cone_pool.specs.Lots.{Lot};

    ghost Value = { Lot };

    ghost view = { λ l. record {
      deque = worker_deque l.own;
      put = (worker_view l.own).put;
      popped = (worker_view l.own).taken;
      out = (worker_view l.own).out;
      tokens = l.tokens.items;
    } };

    ghost invariant = { λ l. (worker_flavor l.own ≡ 1)
        × ((worker_view l.own).first ≡ true)
        × ((worker_view l.own).away ≡ false) };
}

impl Lot {
    /// A new deque, with no pass on another.
    pub(crate) fn new(alloc: Global) -> Result<Lot, AllocError>
        ensures { IfOk result (λ lot. lot ≡ new_lot lot.deque) }
    {
        Ok(Lot {
            own: Owner::lifo_as(alloc, SLOTS)?,
            tokens: Vec::new(alloc),
        })
    }

    /// What others take from.
    pub(crate) fn thief(&self) -> Result<Thief, AllocError>
        ensures { IfOk result (λ thief. stealer_deque thief ≡ self.now.deque) }
    {
        self.own.stealer()
    }

    /// Puts a path at the back, or gives it back for want of memory.
    pub(crate) fn push(&mut self, path: Path) -> Result<(), Path>
        ensures { MatchResult result
            (λ _. IsPushed path self.old self.new)
            (λ back. (back ≡ path) × (self.new ≡ self.old)) }
    {
        self.own.push_as::<Puts>(path)
    }

    /// Takes the path at the back.
    pub(crate) fn pop(&mut self) -> Option<Path>
        ensures { MatchOption result
            ((self.new ≡ self.old) × IsEmptied self.old)
            (λ path. IsPopped path self.old self.new × IsNoMoreThanPut self.new) }
    {
        self.own.pop_as::<Pops>()
    }

    /// Takes the first path of another deque, by the token at an index.
    pub(crate) fn steal(&mut self, k: usize, thief: &Thief) -> Option<Path>
        requires range { k < length self.old.tokens }
        requires same { (slice_index_or self.old.tokens k (new_token (stealer_deque thief.now))).deque
            ≡ stealer_deque thief.now }
        ensures { MatchOption result (self.new ≡ self.old) (λ path. IsStolenAt k path self.old self.new) }
    {
        self.tokens[k].steal(thief)
    }

    /// A pass on this deque, for another worker.
    pub(crate) fn fork(&mut self) -> Token
        ensures lot { self.new ≡ lot_with_one_out self.old }
        ensures token { result ≡ new_token self.old.deque }
    {
        Token {
            pass: self.own.another::<Another>(),
        }
    }

    /// A pass on this deque comes back.
    pub(crate) fn absorb(&mut self, token: Token)
        requires { token.deque ≡ self.old.deque }
        ensures { self.new ≡ absorbed_lot token self.old }
    {
        let Token { pass } = token;
        self.own.absorb::<Back>(pass);
    }

    /// Gets its passes on all deques.
    pub(crate) fn hold(&mut self, tokens: Vec<Token>)
        ensures { self.new ≡ lot_holding tokens.items self.old }
    {
        self.tokens = tokens;
    }

    /// Gives up its passes.
    pub(crate) fn release(&mut self, alloc: Global) -> Vec<Token>
        ensures lot { self.new ≡ lot_holding [] self.old }
        ensures tokens { result.items ≡ self.old.tokens }
    {
        std::mem::replace(&mut self.tokens, Vec::new(alloc))
    }
}
