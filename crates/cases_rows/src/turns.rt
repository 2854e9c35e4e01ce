//! The turns of a call on a row: which calls of the parts each makes.
use crate::by_hand::say_notes;
use crate::hand::{Hand, Standing};
use crate::messages::requests_of;
use crate::place::Place;
use crate::setup::Setup;
use zot_cases::{Answer, cut};
use zot_model::RowCall;
use zot_noting::NotingStore;
use zot_outside::Parts;

// How many turns a call has at most.
const MOST: u64 = 1000;

// The parts after some turns of a call, and whether it is done.
#[derive(Drop)]
struct Played {
    parts: Parts<NotingStore>,
    is_done: bool,
}

/// `SETUP; MESSAGE; ..`: the calls of the row's part and of the shards' parts that the last request of messages makes, in their
/// order. Each turn of the row is followed by one of the pool.
pub fn turns(answer: &mut Answer, given: &str) {
    let (head, messages) = cut(given, "; ");
    let setup = Setup::read(answer, head);
    let Some(mut before) = play(answer, &setup, messages, 0) else {
        return answer.fail("not played");
    };
    for turns in 1..MOST {
        let Some(after) = play(answer, &setup, messages, turns) else {
            return answer.fail("not played");
        };
        say_new(answer, &before, &after);
        if after.is_done {
            return;
        }
        before = after;
    }
    answer.fail("no end");
}

// Asks the requests of messages over parts without objects, of the last one the first turns, so many.
fn play(answer: &mut Answer, setup: &Setup, messages: &str, turns: u64) -> Option<Played> {
    let Place::Row(number) = setup.place else {
        return None;
    };
    let mut requests = requests_of(answer, messages);
    let last = RowCall::Ask(requests.pop()?);
    let mut hand = Hand::open(answer, setup, number)?;
    for request in requests {
        hand.answer_to(answer, &RowCall::Ask(request), setup.moment)?;
    }
    let is_done = begin(answer, &mut hand, &last, setup.moment, turns)?;
    Some(Played {
        parts: hand.close(answer),
        is_done,
    })
}

// Makes the first turns of a call, so many, and answers whether it is done then.
fn begin(
    answer: &Answer,
    hand: &mut Hand,
    call: &RowCall,
    moment: u64,
    turns: u64,
) -> Option<bool> {
    let mut standing = Standing::Begins;
    for _ in 0..turns {
        standing = hand.turn(answer.alloc(), call, moment, standing)?;
    }
    match standing {
        Standing::Done(_) => Some(true),
        _ => Some(false),
    }
}

// Adds the calls that were made of the parts since.
fn say_new(answer: &mut Answer, before: &Played, after: &Played) {
    for (old, new) in before.parts.rows.iter().zip(&after.parts.rows) {
        say_notes(answer, "row ", new, old.notes().len());
    }
    for (old, new) in before.parts.shards.iter().zip(&after.parts.shards) {
        say_notes(answer, "shard ", new, old.notes().len());
    }
}
