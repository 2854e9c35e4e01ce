// A number that each turn raises by one.
ghost use Rattle.std.specs.Prelude.{◌≡◌, ◌+◌, ◌%◌, ◌^◌, ◌<◌, ℕ, length, map, slice_index, IfOk, Some};
ghost use Rattle.tests_turn.specs.Raising.{HasMore, HasRaised, HasAwaited, IsPair};
ghost use Rattle.zot_turn.specs.Seats.{seen};

use std::alloc::Global;
use std::marker::Model;
use std::sync::Wait;
use std::thread;
use std::thread::Threads;
use std::time::{Clock, Duration};
use zot_turn::{Job, NoMemory, Object, Seat, Shared};

const TURNS: u64 = 1000;

/// A number that is counted up. Contracts see it as the number.
#[derive(Drop)]
pub struct Number {
    value: u64,
}

impl Model for Number {
    ghost use Rattle.std.specs.Prelude.{ℕ};

    ghost Value = { ℕ };

    ghost view = { λ n. n.value };
}

impl Number {
    /// The number 0.
    pub fn zero() -> Number
        ensures { result ≡ 0 }
    {
        Number { value: 0 }
    }

    /// The number itself.
    pub fn value(&self) -> u64
        ensures { result ≡ self.now }
    {
        self.value
    }

    // Adds one, and answers the new number.
    fn raise(&mut self) -> u64
        ensures raised { self.new ≡ (self.old + 1) % 2 ^ 64 }
        ensures answer { result ≡ self.new }
    {
        self.value = self.value.wrapping_add(1);
        self.value
    }
}

impl Object for Number {
    type Entry = u64;

    ghost use Rattle.tests_turn.specs.Raising.{IsRaise};

    // it is raised by one, and the entry is the new number
    ghost step = { IsRaise };
}

/// Raises the number by one, and keeps the new one.
#[derive(Drop)]
pub struct Raise {
    pub made: u64,
}

impl Job<Number> for Raise {
    ghost use Rattle.std.specs.Prelude.{◌≡◌, [], ◌∷◌};

    ghost needs = { λ job seat value. Unit {0} };

    ghost does = { λ job seat before after done. done.made ≡ after };

    ghost entries = { λ job. job.made ∷ [] };

    fn run(&mut self, _seat: u64, number: &mut Number) {
        self.made = number.raise();
    }
}

// Takes a thousand turns.
fn raise_often<R: Wait>(rt: &R, shared: &Shared<Number>, mut seat: Seat<Number>) -> Seat<Number>
    requires { seat.home ≡ shared.now }
    ensures { HasMore TURNS seat result }
{
    for _ in 0..TURNS {
        let mut job = Raise { made: 0 };
        shared.turn(rt, &mut seat, &mut job);
    }
    seat
}

// Closes with the seat of number 0, into which the seat of the number that it gave was joined.
fn counted(shared: Shared<Number>, seat: Seat<Number>) -> u64
    requires home { (seat.home ≡ shared) × (shared.opening ≡ Some 0) }
    requires both { IsPair TURNS TURNS seat }
    ensures count { length (seen seat) ≡ 2000 }
    ensures order { (i : ℕ) → i < 2000 → slice_index (map (λ e. e.1) (seen seat)) i ≡ i + 1 }
    ensures value { result ≡ 2000 }
{
    shared.close(seat).value()
}

/// Two threads raise the number a thousand times each.
pub fn raised_by_two<R: Threads + Wait + Sync>(rt: &R, alloc: Global) -> Result<u64, NoMemory>
    ensures { IfOk result (λ n. n ≡ 2000) }
{
    let (shared, mut seat) = Shared::new(alloc, Number::zero())?;
    let other = shared.split(rt, &mut seat)?;
    let lock = &shared;
    let (mut seat, other) = thread::join(
        rt,
        move || -> Seat<Number>
            requires { seat.home ≡ lock.now }
            ensures { HasMore TURNS seat result }
        { raise_often(rt, lock, seat) },
        move || -> Seat<Number>
            requires { other.home ≡ lock.now }
            ensures { HasMore TURNS other result }
        { raise_often(rt, lock, other) },
    );
    shared.join(&mut seat, other);
    Ok(counted(shared, seat))
}

// Raises the number once, a little later.
fn raise_late<R: Wait + Clock>(
    rt: &R,
    shared: &Shared<Number>,
    mut seat: Seat<Number>,
) -> (Seat<Number>, u64)
    requires { seat.home ≡ shared.now }
    ensures { HasRaised seat result.0 result.1 }
{
    thread::sleep(rt, Duration::from_millis(50));
    let mut job = Raise { made: 0 };
    shared.turn(rt, &mut seat, &mut job);
    (seat, job.made)
}

// Waits for another's turn, and then raises the number.
fn raise_next<R: Wait>(
    rt: &R,
    shared: &Shared<Number>,
    mut seat: Seat<Number>,
) -> (Seat<Number>, u64)
    requires { seat.home ≡ shared.now }
    ensures { HasAwaited seat result.0 result.1 }
{
    shared.wait_change(rt, &mut seat);
    let mut job = Raise { made: 0 };
    shared.turn(rt, &mut seat, &mut job);
    (seat, job.made)
}

/// A thread waits until another has raised the number, and raises it too. Gives what each of the two made of it.
pub fn woken<R: Threads + Wait + Clock + Sync>(
    rt: &R,
    alloc: Global,
) -> Result<(u64, u64), NoMemory>
    ensures { IfOk result (λ made. (made.0 ≡ 1) × (made.1 ≡ 2)) }
{
    let (shared, mut seat) = Shared::new(alloc, Number::zero())?;
    let other = shared.split(rt, &mut seat)?;
    let lock = &shared;
    let (late, next) = thread::join(
        rt,
        move || -> (Seat<Number>, u64)
            requires { seat.home ≡ lock.now }
            ensures { HasRaised seat result.0 result.1 }
        { raise_late(rt, lock, seat) },
        move || -> (Seat<Number>, u64)
            requires { other.home ≡ lock.now }
            ensures { HasAwaited other result.0 result.1 }
        { raise_next(rt, lock, other) },
    );
    let (mut seat, first) = late;
    let (other, second) = next;
    shared.join(&mut seat, other);
    shared.close(seat);
    Ok((first, second))
}
