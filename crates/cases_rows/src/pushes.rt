//! Requests of which each call of a part fails in turn.
use crate::cluster::{close, opened_over, opening_calls};
use crate::kept::check_kept;
use crate::messages::requests_of;
use crate::parts::{calls_at, parts_of};
use crate::place::Place;
use crate::setup::Setup;
use crate::table::reply_of;
use zot_cases::{Answer, cut, word};
use zot_contents::SHARDS;
use zot_model::{Reply, Request};
use zot_noting::NotingStore;
use zot_rows::Rows;

// How many calls of a part fail in turn at most.
const MOST: u64 = 1000;

/// What rows are asked, over parts with the objects of a list, and what they reply where no call fails.
#[derive(Drop)]
pub struct Plan<'a> {
    pub setup: Setup,
    pub list: &'a str,
    pub requests: Vec<Request>,
    pub replies: Vec<Reply>,
}

// How many calls failed, each in a run of its own, and in how many of these runs a request was refused.
#[derive(Drop)]
struct Tally {
    calls: u64,
    refused: u64,
}

/// `SETUP; OBJECTS; MESSAGE; ..`: lets each call of a part fail in turn while the requests of messages are asked, until none
/// fails any more: how many calls there were, and how many of them had a request refused. Where the setup says `shards`, each
/// shard is such a part.
///
/// Each reply has to be that which comes where no call fails, or that the storage failed, and then the request is asked once
/// more. Rows that are opened over the same parts then have to have what was stored, and those too that are opened where the
/// requests end with the refused one.
pub fn push(answer: &mut Answer, given: &str) {
    let (head, rest) = cut(given, "; ");
    let (list, messages) = cut(rest, "; ");
    let setup = Setup::read(answer, head);
    let requests = requests_of(answer, messages);
    let replies = replies_of(answer, &setup, list, requests.as_slice());
    let plan = Plan {
        setup,
        list,
        requests,
        replies,
    };
    let mut tally = Tally {
        calls: 0,
        refused: 0,
    };
    if word(head, 2) == "shards" {
        for number in 0..SHARDS {
            try_each(answer, &plan, Place::Shard(number), &mut tally);
        }
    } else {
        try_each(answer, &plan, plan.setup.place, &mut tally);
    }
    answer.tell(&tally.calls);
    answer.say(" calls, ");
    answer.tell(&tally.refused);
    answer.say(" refused");
}

// What rows reply to the requests where no call fails.
fn replies_of(answer: &mut Answer, setup: &Setup, list: &str, requests: &[Request]) -> Vec<Reply> {
    let mut replies = Vec::new(answer.alloc());
    let parts = parts_of(answer, list, Place::Nowhere, &[]);
    if let Some(mut rows) = opened_over(answer, parts, setup) {
        for request in requests {
            let reply = reply_of(answer, &mut rows, request, setup.moment);
            answer.keep(replies.push(reply), ());
        }
    }
    replies
}

// Lets each call of a part fail in turn.
fn try_each(answer: &mut Answer, plan: &Plan, place: Place, tally: &mut Tally) {
    let first = opening_calls(answer, &plan.setup, plan.list, place);
    for number in 1..MOST {
        match try_one(answer, plan, place, first.saturating_add(number)) {
            Some(is_refused) => {
                tally.calls = tally.calls.saturating_add(1);
                if is_refused {
                    tally.refused = tally.refused.saturating_add(1);
                }
            }
            None => return,
        }
    }
    answer.fail("no end; ");
}

// Lets the call of this number fail, and answers whether a request was refused; none where so many calls weren't made.
fn try_one(answer: &mut Answer, plan: &Plan, place: Place, number: u64) -> Option<bool> {
    let mut rows = failing(answer, plan, place, number)?;
    let mut is_refused = false;
    for (request, wanted) in plan.requests.iter().zip(&plan.replies) {
        is_refused |= ask_twice(answer, &mut rows, request, wanted, plan.setup.moment);
    }
    let parts = close(rows);
    if calls_at(&parts, place) < number {
        return None;
    }
    check_kept(answer, plan, parts, plan.requests.len());
    if is_refused {
        stop(answer, plan, place, number);
    }
    Some(is_refused)
}

// The rows over parts of which one fails the call of this number.
fn failing(
    answer: &mut Answer,
    plan: &Plan,
    place: Place,
    number: u64,
) -> Option<Rows<NotingStore>> {
    let parts = parts_of(answer, plan.list, place, &[number]);
    opened_over(answer, parts, &plan.setup)
}

// Asks a request, and asks it once more where the storage failed. The answer is whether it did.
fn ask_twice(
    answer: &mut Answer,
    rows: &mut Rows<NotingStore>,
    request: &Request,
    wanted: &Reply,
    moment: u64,
) -> bool {
    let reply = reply_of(answer, rows, request, moment);
    if reply == *wanted {
        return false;
    }
    answer.confirm(reply == Reply::storage_fault(), "another reply; ");
    let again = reply_of(answer, rows, request, moment);
    answer.confirm(again == *wanted, "another reply once more; ");
    true
}

// Ends with the request that is refused where the call of this number fails.
fn stop(answer: &mut Answer, plan: &Plan, place: Place, number: u64) {
    let Some(mut rows) = failing(answer, plan, place, number) else {
        return;
    };
    let mut answered = 0usize;
    for (request, wanted) in plan.requests.iter().zip(&plan.replies) {
        let reply = reply_of(answer, &mut rows, request, plan.setup.moment);
        if reply != *wanted {
            break;
        }
        answered = answered.saturating_add(1);
    }
    check_kept(answer, plan, close(rows), answered);
}
