// A value that owns a seat of another shared value, and a job that takes a turn at that other in its own turn.
ghost use Rattle.std.specs.Prelude.{◌≡◌, ◌≢◌, IfOk, IsSomeAnd};
ghost use Rattle.tests_turn.specs.Raising.{HasMore, newcomer};

use crate::counter::{Number, Raise};
use std::alloc::Global;
use std::sync::Wait;
use std::thread;
use std::thread::Threads;
use zot_turn::{Job, NoMemory, Object, Seat, SeatAt, Shared};

/// What owns a seat of the shared number.
#[derive(Drop)]
pub struct Row {
    pub seat: SeatAt<Number, u64>,
}

impl Object for Row {
    type Entry = u64;

    ghost use Rattle.std.specs.Prelude.{[], ◌∷◌};
    ghost use Rattle.zot_turn.specs.Seats.{HasMade};

    // the seat made the entry, and else only saw more
    ghost step = { λ old by entry new. HasMade (entry ∷ []) old.seat new.seat };
}

/// Raises the number in a turn of the row's seat, and keeps the new one.
#[derive(Drop)]
pub struct Visit<'a, R> {
    pub rt: &'a R,
    pub numbers: &'a Shared<Number>,
    pub made: u64,
}

impl<'a, R: Wait> Job<Row> for Visit<'a, R> {
    ghost use Rattle.std.specs.Prelude.{◌≡◌, [], ◌∷◌};

    ghost needs = { λ job by row. row.seat.home ≡ job.numbers.now };

    ghost does = { λ job by before after done. done.numbers ≡ job.numbers };

    ghost entries = { λ job. job.made ∷ [] };

    fn run(&mut self, _by: u64, row: &mut Row) {
        let mut job = Raise { made: 0 };
        self.numbers.turn(self.rt, &mut row.seat, &mut job);
        self.made = job.made;
    }
}

// Visits the row once.
fn visit_once<R: Wait>(
    rt: &R,
    rows: &Shared<Row>,
    numbers: &Shared<Number>,
    mut visitor: Seat<Row>,
) -> Seat<Row>
    requires home { visitor.home ≡ rows.now }
    requires inner { IsSomeAnd visitor.home.opening (λ row. row.seat.home ≡ numbers.now) }
    ensures { HasMore 1 visitor result }
{
    let mut visit = Visit {
        rt,
        numbers,
        made: 0,
    };
    rows.turn(rt, &mut visitor, &mut visit);
    visitor
}

// Two threads visit a shared row once each, and it is closed.
fn visited_by_two<R: Threads + Wait + Sync>(
    rt: &R,
    rows: Shared<Row>,
    mut visitor: Seat<Row>,
    numbers: &Shared<Number>,
) -> Result<Row, NoMemory>
    requires first { visitor ≡ newcomer rows }
    requires inner { IsSomeAnd rows.opening (λ row. row.seat.home ≡ numbers.now) }
    ensures { IfOk result (λ row. IsSomeAnd rows.opening (λ opened. HasMore 2 opened.seat row.seat)) }
{
    let other = rows.split(rt, &mut visitor)?;
    let all = &rows;
    let (mut visitor, other) = thread::join(
        rt,
        move || -> Seat<Row>
            requires { (visitor.home ≡ all.now) × IsSomeAnd visitor.home.opening (λ row. row.seat.home ≡ numbers.now) }
            ensures { HasMore 1 visitor result }
        { visit_once(rt, all, numbers, visitor) },
        move || -> Seat<Row>
            requires { (other.home ≡ all.now) × IsSomeAnd other.home.opening (λ row. row.seat.home ≡ numbers.now) }
            ensures { HasMore 1 other result }
        { visit_once(rt, all, numbers, other) },
    );
    rows.join(&mut visitor, other);
    Ok(rows.close(visitor))
}

/// Two threads visit a shared row, which is then closed, and the number with the row's seat. Gives that seat's number and what was counted.
pub fn visited<R: Threads + Wait + Sync>(rt: &R, alloc: Global) -> Result<(u64, u64), NoMemory>
    ensures { IfOk result (λ r. (r.0 ≢ 0) × (r.1 ≡ 2)) }
{
    let (numbers, mut seat) = Shared::new(alloc, Number::zero())?;
    let inner = numbers.split(rt, &mut seat)?;
    let (rows, visitor) = Shared::new(alloc, Row { seat: inner })?;
    let Row { seat: inner } = visited_by_two(rt, rows, visitor, &numbers)?;
    let by = inner.number();
    numbers.join(&mut seat, inner);
    Ok((by, numbers.close(seat).value()))
}
