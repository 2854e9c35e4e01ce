//! The shared value.
ghost use Rattle.std.specs.Prelude.{◌≡◌, ◌<◌, ◌≤◌, ℕ, [], ◌∷◌, ◌++◌, length, max, IsOk, IfOk, Some};
ghost use Rattle.std.specs.List.{Contains, AllByRecursion};
ghost use mathlib.Core.List.{IsPrefix};
ghost use Rattle.zot_turn.specs.Seats.{Turned, Parted, Joined, IsLater, IsOwed, HasAll, HasOwn, Stands, acting, numbers, seen};

use crate::known::Known;
use crate::object::{Job, Object};
use crate::rule::{Both, OneHistory, Part, Settle};
use crate::seat::{Seat, SeatAt};
use crate::steps::{draw, give, lay, lift, take, watch};
use atomic_table::Table;
use std::alloc::{AllocError, Global};
use std::marker::{Brand, Model};
use std::snapshot::Snapshot;
use std::sync::Wait;

/// Memory ran out.
pub type NoMemory = AllocError;

/// A value that threads share. Each takes turns at it with a seat of its own.
#[derive(Drop)]
pub struct Shared<O: Object> {
    table: Table<Option<O>, Known<O, O::Entry>, Snapshot<O>, OneHistory, Global>,
}

impl<O: Object> Model for Shared<O> {
    ghost use Rattle.std.specs.Prelude.{◌≡◌, Some};
    ghost use Rattle.zot_turn.specs.Seats.{Home};

    ghost Value = { Home O };

    ghost view = { λ s. record { table = s.table.shared.table_id; opening = Some s.table.shared.key.value } };

    ghost invariant = { λ s. (s.table.shared.table_id.words ≡ 2) × (s.table.shared.table_id.slots ≡ 1) };
}

impl<O: Object + Drop> Shared<O> {
    /// Shares a value, and gives its first seat, whose number is 0. Where memory runs out it answers `NoMemory`, and the value is dropped.
    pub fn new(alloc: Global, value: O) -> Result<(Shared<O>, Seat<O>), NoMemory>
        ensures opening { IfOk result (λ r. r.0.opening ≡ Some value) }
        ensures seat { IfOk result (λ r. r.1 ≡ record { home = r.0; turns = []; mine = (0, []) ∷ []; gave = []; shown = 0 }) }
    {
        let opening = Snapshot::of(&value);
        let mut slots = Vec::new(alloc);
        slots.push(Some(value))?;
        let Ok((table, inner)) = Table::new(alloc, &[0, 1], slots, &opening) else {
            return Err(AllocError);
        };
        let seat = SeatAt {
            inner,
            number: 0,
            turns: 0,
        };
        Ok((Shared { table }, seat))
    }
}

impl<O: Object> Shared<O> {
    /// Waits for the value, runs the job on it once and puts it back. It takes no memory of its own. Where no further turn can be counted it waits for ever.
    pub fn turn<J: Job<O>>(&self, rt: &impl Wait, seat: &mut Seat<O>, job: &mut J)
        requires seat { seat.old.home ≡ self.now }
        requires needs { IsOwed O.step seat.old (λ v. J.needs job.old (acting seat.old.mine) v) }
        ensures turned { Turned O.step (J.entries job.new) (λ v w. J.does job.old (acting seat.old.mine) v w job.new) seat.old seat.new }
        ensures later { IsLater seat.old seat.new }
    {
        let board = &self.table.shared;
        let found = take(rt, board, &mut seat.inner);
        let mut value = lift(board, &mut seat.inner);
        job.run(seat.number, &mut value);
        lay(board, &mut seat.inner, value);
        give::<O, J, Brand>(board, &mut seat.inner, job, found);
        seat.turns = found / 2 + 1;
    }

    /// Gives a new seat with a number of its own, which has seen as much. It takes no memory, so it always answers `Ok`. Where no number is left it waits for ever.
    pub fn split(&self, rt: &impl Wait, seat: &mut Seat<O>) -> Result<Seat<O>, NoMemory>
        requires { seat.old.home ≡ self.now }
        ensures given { IsOk result }
        ensures parted { IfOk result (λ new. Parted seat.old seat.new new) }
    {
        let board = &self.table.shared;
        let number = draw(rt, board, &mut seat.inner);
        let inner = board.split_seat::<Part>(&mut seat.inner);
        Ok(SeatAt {
            inner,
            number,
            turns: seat.turns,
        })
    }

    /// Takes in another seat, with its numbers and their entries. It takes no memory.
    pub fn join(&self, seat: &mut Seat<O>, other: Seat<O>)
        requires { (seat.old.home ≡ self.now) × (other.home ≡ self.now) }
        ensures { Joined O.step seat.old other seat.new }
    {
        let SeatAt {
            inner,
            number: _,
            turns,
        } = other;
        let board = &self.table.shared;
        board.join_seat::<Both>(&mut seat.inner, inner);
        board.load::<Settle>(&mut seat.inner, 0);
        let most = seat.turns.max(turns);
        seat.turns = most;
    }

    /// Waits until a look shows more turns than the seat has seen, so that another seat has had one.
    pub fn wait_change(&self, rt: &impl Wait, seat: &mut Seat<O>)
        requires { seat.old.home ≡ self.now }
        ensures shown { length seat.old.turns < seat.new.shown }
        ensures risen { seat.old.shown ≤ seat.new.shown }
        ensures same { seat.new ≡ record seat.old { shown = seat.new.shown } }
    {
        watch(rt, &self.table.shared, &mut seat.inner, seat.turns);
    }

    /// The value at the end, once every other seat was joined into this one.
    pub fn close(self, seat: Seat<O>) -> O
        requires seat { seat.home ≡ self }
        requires all { HasAll seat }
        ensures stands { Stands O.step seat.home (seen seat) result }
        ensures all { AllByRecursion (λ t. Contains (numbers seat.mine) t.0) seat.turns }
        ensures own { HasOwn seat.mine (seen seat) }
        ensures shown { seat.shown ≤ length seat.turns }
    {
        let SeatAt {
            inner,
            number: _,
            turns: _,
        } = seat;
        let Shared { table } = self;
        let mut closed = table.close_with(inner);
        let slot = closed.take(0);
        closed.free();
        match slot {
            Some(value) => value,
            None => unreachable!(),
        }
    }
}
