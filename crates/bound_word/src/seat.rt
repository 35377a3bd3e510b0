//! A thread's share of a table.

use crate::rule::View;
use std::marker::Model;

/// A thread's share of a table: what it offered and what it was told.
#[derive(Drop)]
pub struct BoundSeat {
    pub(crate) seat: atomic_table::Seat<(), View>,
    pub(crate) given: u64,
    pub(crate) told: u64,
}

impl Model for BoundSeat {
    ghost use Rattle.std.specs.Prelude.{◌≡◌, ◌≤◌, false, []};
    ghost use Rattle.bound_word.specs.Seats.{Seat, greatest_word};

    ghost Value = { Seat };

    ghost view = { λ s. record {
      table = s.seat.table_id;
      given = s.given;
      told = s.told;
      first = s.seat.me.0.first;
      out = s.seat.me.0.out;
    } };

    ghost invariant = { λ s. (s.seat.me.1 ≡ []) × (s.seat.me.0.given ≡ s.given) × (s.seat.me.0.told ≡ s.told)
        × (s.seat.me.0.away ≡ false) × (s.given ≤ greatest_word) };
}
