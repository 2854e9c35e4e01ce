//! A seat: what one thread takes its turns with.
ghost use Rattle.std.specs.Prelude.{◌≡◌};
ghost use Rattle.zot_turn.specs.Seats.{acting};

use crate::known::Known;
use crate::object::Object;
use std::marker::Model;

/// A seat of a shared value of the type `O`, whose entries are of the type `E`. Contracts see it as what it knows.
#[derive(Drop)]
pub struct SeatAt<O, E> {
    pub(crate) inner: atomic_table::Seat<Option<O>, Known<O, E>>,
    // the number that it acts in
    pub(crate) number: u64,
    // how many turns it has seen
    pub(crate) turns: u64,
}

/// A seat of a shared `O`.
pub type Seat<O> = SeatAt<O, <O as Object>::Entry>;

impl<O, E> Model for SeatAt<O, E> {
    ghost use Rattle.zot_turn.specs.Seats.{Standing};

    ghost Value = { Standing O E };

    ghost use Rattle.zot_turn.specs.Views.{standing_of, IsAtRest};

    ghost view = { λ s. standing_of s.inner.table_id s.inner.me.0 };

    ghost invariant = { λ s. IsAtRest s.number s.turns s.inner.me };
}

impl<O, E> SeatAt<O, E> {
    /// The number that the seat acts in: its own from the start, whatever was joined into it.
    pub fn number(&self) -> u64
        ensures { result ≡ acting self.now.mine }
    {
        self.number
    }
}
