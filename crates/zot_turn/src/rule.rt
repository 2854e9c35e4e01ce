//! The rule of the table, and what each kind of step says. These types are for the proofs alone.
use crate::known::Known;
use crate::object::Object;
use atomic_table::{Join, Play, Split, TableRule};
use std::marker::{Brand, PhantomData};
use std::snapshot::Snapshot;

pub struct OneHistory;

impl<O: Object> TableRule<Option<O>, Known<O, O::Entry>, Snapshot<O>> for OneHistory {
    ghost use Rattle.zot_turn.specs.Steps.{Kept, first_known};

    ghost holds = { λ opening s. Kept O.step opening.value s };

    ghost first = { λ opening. first_known opening.value };
}

// The entries of a turn. A call at `Brand` picks them.
pub(crate) trait Made<E> {
    ghost use Rattle.std.specs.Prelude.{List};

    ghost made: { List E };
}

impl<E> Made<E> for Brand {
    ghost use Rattle.std.specs.Prelude.{[]};

    ghost made = { [] };
}

pub(crate) struct Take;

impl<O: Object> Play<Option<O>, Known<O, O::Entry>> for Take {
    ghost use Rattle.zot_turn.specs.Steps.{TakesTurnOrNot};

    ghost then = { TakesTurnOrNot O.step };
}

pub(crate) struct Give<M> {
    made: PhantomData<M>,
}

impl<O, E, M: Made<E>> Play<Option<O>, Known<O, E>> for Give<M> {
    ghost use Rattle.std.specs.Prelude.{◌≡◌};
    ghost use Rattle.atomic_table.specs.Table.{rest};
    ghost use Rattle.zot_turn.specs.Steps.{after_turn};

    ghost then = { λ s me found now. now ≡ (after_turn M.made me.0, rest me.1) };
}

pub(crate) struct Draw;

impl<O, E> Play<Option<O>, Known<O, E>> for Draw {
    ghost use Rattle.zot_turn.specs.Steps.{Draws};

    ghost then = { Draws };
}

pub(crate) struct Look;

impl<O, E> Play<Option<O>, Known<O, E>> for Look {
    ghost use Rattle.zot_turn.specs.Steps.{Looks};

    ghost then = { Looks };
}

pub(crate) struct Settle;

impl<O: Object> Play<Option<O>, Known<O, O::Entry>> for Settle {
    ghost use Rattle.zot_turn.specs.Steps.{Settles};

    ghost then = { Settles O.step };
}

pub(crate) struct Part;

impl<O, E> Split<Known<O, E>> for Part {
    ghost use Rattle.zot_turn.specs.Steps.{giver, taker};

    ghost left = { giver };

    ghost right = { taker };
}

pub(crate) struct Both;

impl<O, E> Join<Known<O, E>> for Both {
    ghost use Rattle.zot_turn.specs.Seats.{longer, shorter};
    ghost use Rattle.zot_turn.specs.Steps.{joined_by, spent_known};

    ghost both = { joined_by longer shorter };

    ghost spent = { spent_known };
}
