//! The two shared words.

ghost use Rattle.std.specs.Prelude.{◌≡◌, ◌+◌, ◌≤◌, min, true, false, IfOk};
ghost use Rattle.bound_word.specs.Seats.{first_seat, another_seat, with_one_out, after_offer, joined_seat};

use crate::rule::{Another, Back, Counts, Falls, Looks, Offers, View};
use crate::seat::BoundSeat;
use std::alloc::{AllocError, Global};
use std::marker::Model;

/// A word that only falls, and a count.
#[derive(Drop)]
pub struct BoundTable {
    table: atomic_table::Table<(), View, u64, Falls, Global>,
}

impl Model for BoundTable {
    ghost use Rattle.std.specs.Prelude.{◌≡◌};
    ghost use Rattle.bound_word.specs.Seats.{ShownTable};

    ghost Value = { ShownTable };

    ghost view = { λ t. record { id = t.table.shared.table_id; start = t.table.shared.key } };

    ghost invariant = { λ t. (t.table.shared.table_id.words ≡ 2) × (t.table.shared.table_id.slots ≡ 0) };
}

/// What is known once a table is closed.
#[derive(Clone, Copy, Debug, PartialEq, Eq)]
pub struct Final {
    /// The word.
    pub word: u64,
    /// The least code that was offered, or the greatest u64 if none.
    pub given: u64,
    /// The least word that a seat was last told.
    pub told: u64,
}

/// The second word counts what the threads have left to do.
const COUNT: usize = 1;

impl BoundTable {
    /// A table whose word is `start`, with a count of 1.
    pub fn make(alloc: Global, start: u64) -> Result<(BoundTable, BoundSeat), AllocError>
        ensures start { IfOk result (λ made. made.0.start ≡ start) }
        ensures seat { IfOk result (λ made. made.1 ≡ first_seat made.0) }
    {
        let (table, seat) = atomic_table::Table::of_words(alloc, &[start, 1], &start)?;
        let seat = BoundSeat {
            seat,
            given: u64::MAX,
            told: start,
        };
        Ok((BoundTable { table }, seat))
    }

    /// Lowers the word to a code, in one step. It answers the lesser of the old word and the code.
    pub fn offer(&self, seat: &mut BoundSeat, code: u64) -> u64
        requires { seat.old.table ≡ self.now.id }
        ensures below_code { result ≤ code }
        ensures below_told { result ≤ seat.old.told }
        ensures seat { seat.new ≡ after_offer seat.old code result }
    {
        let found = self
            .table
            .shared
            .fetch_min::<Offers>(&mut seat.seat, 0, code);
        seat.given = seat.given.min(code);
        seat.told = found.min(code);
        seat.told
    }

    /// The count rises by `more`. It wraps.
    pub fn opened(&self, seat: &mut BoundSeat, more: u64)
        requires { seat.old.table ≡ self.now.id }
        ensures { seat.new ≡ seat.old }
    {
        self.table
            .shared
            .fetch_add::<Counts>(&mut seat.seat, COUNT, more);
    }

    /// The count falls by one. It wraps.
    pub fn ended(&self, seat: &mut BoundSeat)
        requires { seat.old.table ≡ self.now.id }
        ensures { seat.new ≡ seat.old }
    {
        self.table
            .shared
            .fetch_sub::<Counts>(&mut seat.seat, COUNT, 1);
    }

    /// Whether the count read 0 at one step of this call.
    pub fn idle(&self, seat: &mut BoundSeat) -> bool
        requires { seat.old.table ≡ self.now.id }
        ensures { seat.new ≡ seat.old }
    {
        self.table.shared.load::<Counts>(&mut seat.seat, COUNT) == 0
    }

    /// A seat for another thread, split from the first one. It has offered nothing, and was told what this one was told.
    pub fn split(&self, seat: &mut BoundSeat) -> BoundSeat
        requires table { seat.old.table ≡ self.now.id }
        requires first { seat.old.first ≡ true }
        ensures seat { seat.new ≡ with_one_out seat.old }
        ensures another { result ≡ another_seat seat.old }
    {
        let other = self.table.shared.split_seat::<Another>(&mut seat.seat);
        BoundSeat {
            seat: other,
            given: u64::MAX,
            told: seat.told,
        }
    }

    /// The first seat takes what another offered and was told.
    pub fn join(&self, seat: &mut BoundSeat, other: BoundSeat)
        requires tables { (seat.old.table ≡ self.now.id) × (other.table ≡ self.now.id) }
        requires first { seat.old.first ≡ true }
        requires another { other.first ≡ false }
        ensures seat { seat.new ≡ joined_seat seat.old other }
        ensures out { seat.new.out + 1 ≡ seat.old.out }
    {
        let BoundSeat {
            seat: theirs,
            given,
            told,
        } = other;
        self.table.shared.join_seat::<Back>(&mut seat.seat, theirs);
        // what the rule says of `out` is told at a step
        self.table.shared.load::<Looks>(&mut seat.seat, COUNT);
        seat.given = seat.given.min(given);
        seat.told = seat.told.min(told);
    }

    /// The word at the end, when all seats were joined into the first one.
    pub fn close(self, seat: BoundSeat) -> Final
        requires table { seat.table ≡ self.id }
        requires first { seat.first ≡ true }
        requires all { seat.out ≡ 0 }
        ensures word { result.word ≡ min self.start seat.given }
        ensures below { result.word ≤ seat.told }
        ensures given { result.given ≡ seat.given }
        ensures told { result.told ≡ seat.told }
    {
        let BoundTable { table } = self;
        let BoundSeat { seat, given, told } = seat;
        let closed = table.close_with(seat);
        let word = closed.word(0);
        closed.free();
        Final { word, given, told }
    }
}
