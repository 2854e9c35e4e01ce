//! The steps that a seat takes on the table.
ghost use Rattle.std.specs.Prelude.{◌≡◌, ◌+◌, ◌%◌, ◌^◌, ◌<◌, ◌≤◌, ◌↔◌, [], ◌∷◌, IsTrue, Some, None};
ghost use Rattle.zot_turn.specs.Steps.{TakesTurn, MayGive, Drawn, IsBoard, HasNumber, after_turn};

use crate::known::Known;
use crate::object::{Job, Object};
use crate::rule::{Draw, Give, Look, Made, OneHistory, Take};
use atomic_table::{Seat, Shared};
use std::snapshot::Snapshot;
use std::sync::Wait;

/// The table's steps.
pub(crate) type Board<O> = Shared<
    Option<O>,
    Known<O, <O as Object>::Entry>,
    Snapshot<O>,
    OneHistory,
>;

/// A seat of the table.
pub(crate) type Chair<O> = Seat<Option<O>, Known<O, <O as Object>::Entry>>;

// A park compares the low 32 bits of a word.
const LOW: u64 = 0xffff_ffff;

// Whether a turn can be taken: none is held, and the count of turns has room for one more.
fn is_free(word: u64) -> bool
    ensures { IsTrue result ↔ ((word % 2 ≡ 0) × (word + 3 < 2 ^ 64)) }
{
    word % 2 == 0 && word < u64::MAX - 2
}

// Waits until the word is another. It may return before that.
fn rest<O: Object, R: Wait>(rt: &R, board: &Board<O>, word: usize, was: u64)
    requires { word < board.now.table_id.words }
{
    board.park(rt, word, (was & LOW) as u32);
}

/// Waits for the turn, and answers the word that it found: twice the number of turns before. Where the count of turns has no room for one more it waits for ever.
pub(crate) fn take<O: Object, R: Wait>(rt: &R, board: &Board<O>, seat: &mut Chair<O>) -> u64
    requires board { IsBoard board.now.table_id seat.old.table_id }
    requires acts { HasNumber seat.old.me.0.mine }
    ensures seat { (seat.new.table_id ≡ seat.old.table_id) × (seat.new.id ≡ seat.old.id) }
    ensures taken { TakesTurn O.step result seat.old.me seat.new.me }
    ensures room { result + 3 < 2 ^ 64 }
{
    for _ in rt.forever() {
        let word = board.peek(0);
        if is_free(word) {
            let found = board.compare_exchange::<Take>(seat, 0, word, word + 1);
            if found == word {
                return word;
            }
        } else {
            rest(rt, board, 0, word);
        }
    }
    unreachable!()
}

/// Takes the value out of its slot.
pub(crate) fn lift<O: Object>(board: &Board<O>, seat: &mut Chair<O>) -> O
    requires { (seat.old.table_id ≡ board.now.table_id) × ((value : O) × (seat.old.me.1 ≡ (0, Some value) ∷ [])) }
    ensures seat { (seat.new.table_id ≡ seat.old.table_id) × (seat.new.id ≡ seat.old.id) }
    ensures value { (seat.old.me.1 ≡ (0, Some result) ∷ []) × (seat.new.me ≡ (seat.old.me.0, (0, None) ∷ [])) }
{
    let slot = board.exchange(seat, 0, None);
    match slot {
        Some(value) => value,
        None => unreachable!(),
    }
}

/// Puts a value into the empty slot.
pub(crate) fn lay<O: Object>(board: &Board<O>, seat: &mut Chair<O>, value: O)
    requires { (seat.old.table_id ≡ board.now.table_id) × (seat.old.me.1 ≡ (0, None) ∷ []) }
    ensures seat { (seat.new.table_id ≡ seat.old.table_id) × (seat.new.id ≡ seat.old.id) }
    ensures value { seat.new.me ≡ (seat.old.me.0, (0, Some value) ∷ []) }
{
    let slot = board.exchange(seat, 0, Some(value));
    match slot {
        Some(_other) => unreachable!(),
        None => {}
    }
}

/// Gives the turn back, with the entries of the job's run.
pub(crate) fn give<O: Object, J: Job<O>, M: Made<O::Entry>>(
    board: &Board<O>,
    seat: &mut Chair<O>,
    job: &J,
    found: u64,
)
    requires board { IsBoard board.now.table_id seat.old.table_id }
    requires entries { M.made ≡ J.entries job.now }
    requires may { MayGive O.step board.now.key.value (J.entries job.now) found seat.old.me }
    requires room { found + 3 < 2 ^ 64 }
    ensures seat { (seat.new.table_id ≡ seat.old.table_id) × (seat.new.id ≡ seat.old.id) }
    ensures given { seat.new.me ≡ (after_turn (J.entries job.now) seat.old.me.0, []) }
{
    let _ = job;
    board.swap::<Give<M>>(seat, 0, found + 2);
    board.wake_all(0);
}

/// Draws a number. Where another seat draws at the same time it tries again, and where none is left it waits for ever.
pub(crate) fn draw<O: Object, R: Wait>(rt: &R, board: &Board<O>, seat: &mut Chair<O>) -> u64
    requires board { IsBoard board.now.table_id seat.old.table_id }
    requires acts { HasNumber seat.old.me.0.mine }
    ensures seat { (seat.new.table_id ≡ seat.old.table_id) × (seat.new.id ≡ seat.old.id) }
    ensures drawn { Drawn result seat.old.me seat.new.me }
{
    for _ in rt.forever() {
        let count = board.peek(1);
        if count < u64::MAX {
            let found = board.compare_exchange::<Draw>(seat, 1, count, count + 1);
            if found == count {
                return count;
            }
        } else {
            rest(rt, board, 1, count);
        }
    }
    unreachable!()
}

/// Waits until a look shows more turns than these.
pub(crate) fn watch<O: Object, R: Wait>(rt: &R, board: &Board<O>, seat: &mut Chair<O>, turns: u64)
    requires { IsBoard board.now.table_id seat.old.table_id }
    ensures seat { (seat.new.table_id ≡ seat.old.table_id) × (seat.new.id ≡ seat.old.id) }
    ensures looked { (turns < seat.new.me.0.shown) × (seat.old.me.0.shown ≤ seat.new.me.0.shown) }
    ensures same { seat.new.me ≡ (record seat.old.me.0 { shown = seat.new.me.0.shown }, seat.old.me.1) }
{
    for _ in rt.forever() {
        let word = board.load::<Look>(seat, 0);
        if turns < word / 2 {
            return;
        }
        rest(rt, board, 0, word);
    }
    unreachable!()
}
