//! What the steps on a deque of paths keep, and what each tells its thread.

use crossbeam_deque::protocol::{Join, Outcome, Protocol, Split};
use crossbeam_deque::{Pass, Stealer, Worker};
use std::alloc::Global;
use std::collections::LinkedList;
use unimodular_cone::Path;

/// What a pass of a deque has put and taken. No value of it is made.
pub struct Account {
    /// What it put, in order.
    pub put: LinkedList<Path>,
    /// What it took, in order.
    pub taken: LinkedList<Path>,
    /// Whether it is the pass of the deque's owner.
    pub first: bool,
    /// How many other passes are in use, if it is the first.
    pub out: u64,
    /// Whether it was joined into another.
    pub away: bool,
}

/// What was put is, path by path, what is left or was taken by one pass.
pub struct EachOnce;

impl Protocol<Path, Account> for EachOnce {
    ghost use Rattle.cone_pool.specs.Deques.{IsBalanced, opening_account, away_account};

    ghost holds = { IsBalanced };

    ghost first = { opening_account };

    ghost guest = { away_account };
}

/// A push.
pub struct Puts;

impl Outcome<Path, Account> for Puts {
    ghost use Rattle.cone_pool.specs.Deques.{PutsPaths};

    ghost then = { PutsPaths };
}

/// A pop. With no other pass in use, the owner took no path more often than it put it, and all that it put once the
/// deque is empty.
pub struct Pops;

impl Outcome<Path, Account> for Pops {
    ghost use Rattle.cone_pool.specs.Deques.{TakesPathsWithin, TookAllThatItPut};

    ghost then = { TakesPathsWithin };

    ghost empty = { TookAllThatItPut };
}

/// A steal.
pub struct Steals;

impl Outcome<Path, Account> for Steals {
    ghost use Rattle.cone_pool.specs.Deques.{TakesPaths};

    ghost then = { TakesPaths };
}

/// A pass for another thread.
pub struct Another;

impl Split<Account> for Another {
    ghost use Rattle.cone_pool.specs.Deques.{account_with_one_more, another_account};

    ghost left = { account_with_one_more };

    ghost right = { λ v. another_account };
}

/// A pass comes back.
pub struct Back;

impl Join<Account> for Back {
    ghost use Rattle.cone_pool.specs.Deques.{joined_account, away_account};

    ghost both = { joined_account };

    ghost spent = { away_account };
}

/// The owner's end of a deque of paths.
pub type Owner = Worker<Path, Global, Account, EachOnce>;

/// What other threads take from.
pub type Thief = Stealer<Path, Global, Account, EachOnce>;

/// A pass of another thread.
pub type PathPass = Pass<Path, Account>;
