//! Rows that are driven by hand, beside rows that are asked with their pool.
use crate::hand::{Hand, part_and_pool};
use crate::messages::requests_of;
use crate::objects::{say_objects, say_path};
use crate::place::Place;
use crate::setup::Setup;
use crate::stepped::Stepped;
use std::alloc::Global;
use zot_cases::{Answer, cut};
use zot_model::{Reply, Request, RowCall};
use zot_noting::NotingStore;
use zot_outside::Parts;
use zot_pool::Pool;

// A row, with the pool that it is lent.
#[derive(Drop)]
struct Step {
    row: Stepped,
    pool: Pool<NotingStore>,
}

impl Step {
    // Opens the row of a number and the pool, over parts without objects.
    fn open(answer: &mut Answer, setup: &Setup, number: u32) -> Option<Step> {
        let alloc = answer.alloc();
        let (part, pool) = part_and_pool(answer, setup, number)?;
        match Stepped::open(alloc, number, part, setup.moment) {
            Ok(row) => Some(Step { row, pool }),
            Err(_) => None,
        }
    }

    // Gives the parts back, of which that of the row is the only one of rows.
    fn close(self, answer: &mut Answer) -> Parts<NotingStore> {
        let Step { row, pool } = self;
        let mut rows = Vec::new(answer.alloc());
        answer.keep(rows.push(row.close()), ());
        Parts {
            rows,
            shards: pool.close(),
        }
    }
}

/// `SETUP; MESSAGE; ..`: asks the requests of messages of the row of the setup, once driven by hand, with the answers of a pool
/// that is asked by hand, and once with a pool. The replies, the calls of the parts and their objects have to be the same. The
/// last request is asked of both with a pool.
pub fn hand(answer: &mut Answer, given: &str) {
    let (head, messages) = cut(given, "; ");
    let setup = Setup::read(answer, head);
    let mut requests = requests_of(answer, messages);
    let (Place::Row(number), Some(last)) = (setup.place, requests.pop()) else {
        return answer.fail("no row, or no request");
    };
    let Some(mut by_hand) = Hand::open(answer, &setup, number) else {
        return answer.fail("not opened");
    };
    let Some(mut by_step) = Step::open(answer, &setup, number) else {
        return answer.fail("not opened");
    };
    for request in requests {
        let call = RowCall::Ask(request);
        ask_both(answer, &mut by_hand, &mut by_step, &call, setup.moment);
    }
    end(answer, by_hand, by_step, &last, setup.moment);
}

// Asks a call of both, whose answers have to be the same.
fn ask_both(
    answer: &mut Answer,
    by_hand: &mut Hand,
    by_step: &mut Step,
    call: &RowCall,
    moment: u64,
) {
    let alloc = answer.alloc();
    let came = by_hand.answer_to(answer, call, moment);
    let wanted = by_step.row.step(&mut by_step.pool, alloc, call, moment);
    answer.confirm(came.is_some() && came == wanted, "another reply; ");
}

// Asks the last request of both with a pool, and compares their parts.
fn end(answer: &mut Answer, by_hand: Hand, by_step: Step, last: &Request, moment: u64) {
    let alloc = answer.alloc();
    let Hand { driven, pool } = by_hand;
    let Some(row) = driven.into_stepped() else {
        return answer.fail("a call waits");
    };
    let mut was_by_hand = Step { row, pool };
    let mut by_step = by_step;
    let came = last_reply(alloc, &mut was_by_hand, last, moment);
    let wanted = last_reply(alloc, &mut by_step, last, moment);
    answer.confirm(came.is_some() && came == wanted, "another last reply; ");
    let came = was_by_hand.close(answer);
    let wanted = by_step.close(answer);
    let is_same = text_of(alloc, &came).as_str() == text_of(alloc, &wanted).as_str();
    answer.confirm(is_same, "other parts; ");
    answer.say("same");
}

// The reply to a request.
fn last_reply(alloc: Global, step: &mut Step, request: &Request, moment: u64) -> Option<Reply> {
    step.row.reply_to(&mut step.pool, alloc, request, moment)
}

// The objects of parts, and the calls that were made of each.
fn text_of(alloc: Global, parts: &Parts<NotingStore>) -> Answer {
    let mut text = Answer::new(alloc);
    say_objects(&mut text, parts);
    for part in &parts.rows {
        say_notes(&mut text, "row ", part, 0);
    }
    for part in &parts.shards {
        say_notes(&mut text, "shard ", part, 0);
    }
    text
}

/// Adds the calls that were made of a part, behind the first of them, so many.
pub fn say_notes(answer: &mut Answer, kind: &str, part: &NotingStore, first: usize) {
    for note in part.notes().iter().skip(first) {
        answer.begin();
        answer.say(kind);
        say_path(answer, note.as_str());
    }
}
