//! A worker's seat, with its share of the count of unfinished cones.

ghost use Rattle.std.specs.Prelude.{◌≡◌, ◌+◌, ◌≤◌, true, false};
ghost use Rattle.bound_word.specs.Seats.{after_offer, joined_seat};

use bound_word::{BoundSeat, BoundTable};
use search_core::Fate;
use std::marker::Model;

/// How much of the count a seat borrows at once.
const LOAN: u64 = 256;

/// A seat that borrows from the count, so that a turn seldom takes a step on it. The count is the number of unfinished cones
/// and all that seats have borrowed and not given back: it reads 0 only where no cone is unfinished. Contracts see the seat.
#[derive(Drop)]
pub(crate) struct CountedSeat {
    seat: BoundSeat,
    borrowed: u64,
}

impl Model for CountedSeat {
    ghost use Rattle.bound_word.specs.Seats.{Seat};

    ghost Value = { Seat };

    ghost view = { λ s. s.seat };
}

impl CountedSeat {
    /// A seat that has borrowed nothing.
    pub(crate) fn of(seat: BoundSeat) -> CountedSeat
        ensures { result ≡ seat }
    {
        CountedSeat { seat, borrowed: 0 }
    }

    /// The seat. What it has borrowed is not given back.
    pub(crate) fn into_seat(self) -> BoundSeat
        ensures { result ≡ self }
    {
        self.seat
    }

    /// Lowers the word to a code, in one step. It answers the lesser of the old word and the code.
    pub(crate) fn offer(&mut self, table: &BoundTable, code: u64) -> u64
        requires { self.old.table ≡ table.now.id }
        ensures below_code { result ≤ code }
        ensures below_told { result ≤ self.old.told }
        ensures seat { self.new ≡ after_offer self.old code result }
    {
        table.offer(&mut self.seat, code)
    }

    /// One more cone is unfinished.
    fn opened(&mut self, table: &BoundTable)
        requires { self.old.table ≡ table.now.id }
        ensures { self.new ≡ self.old }
    {
        self.borrowed = match self.borrowed {
            0 => {
                table.opened(&mut self.seat, LOAN);
                LOAN - 1
            }
            more => more - 1,
        };
    }

    /// One cone fewer is unfinished.
    fn ended(&mut self, table: &BoundTable)
        requires { self.old.table ≡ table.now.id }
        ensures { self.new ≡ self.old }
    {
        if self.borrowed >= 2 * LOAN {
            self.settle(table);
        }
        self.borrowed = self.borrowed.wrapping_add(1);
    }

    /// Gives back all that was borrowed.
    pub(crate) fn settle(&mut self, table: &BoundTable)
        requires { self.old.table ≡ table.now.id }
        ensures { self.new ≡ self.old }
    {
        if self.borrowed > 0 {
            table.opened(&mut self.seat, self.borrowed.wrapping_neg());
            self.borrowed = 0;
        }
    }

    /// Whether the count read 0, once all that was borrowed is given back.
    pub(crate) fn idle(&mut self, table: &BoundTable) -> bool
        requires { self.old.table ≡ table.now.id }
        ensures { self.new ≡ self.old }
    {
        self.settle(table);
        table.idle(&mut self.seat)
    }

    /// The first seat takes what another offered and was told.
    pub(crate) fn join(&mut self, table: &BoundTable, other: CountedSeat)
        requires tables { (self.old.table ≡ table.now.id) × (other.table ≡ table.now.id) }
        requires first { self.old.first ≡ true }
        requires another { other.first ≡ false }
        ensures seat { self.new ≡ joined_seat self.old other }
        ensures out { self.new.out + 1 ≡ self.old.out }
    {
        table.join(&mut self.seat, other.into_seat());
    }
}

/// A cone is judged, and the children of a Split are unfinished.
pub(crate) fn count(table: &BoundTable, seat: &mut CountedSeat, fate: &Fate)
    requires { seat.old.table ≡ table.now.id }
    ensures { seat.new ≡ seat.old }
{
    match *fate {
        Fate::Split { .. } => seat.opened(table),
        _ => seat.ended(table),
    }
}

/// The paths that are kept are left to the coordinator.
pub(crate) fn uncount(table: &BoundTable, seat: &mut CountedSeat, kept: usize)
    requires { seat.old.table ≡ table.now.id }
    ensures { seat.new ≡ seat.old }
{
    for _ in 0..kept {
        seat.ended(table);
    }
}
