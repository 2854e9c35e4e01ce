//! Requests that the rows of a cluster are asked.
use crate::cluster::{close, opened, opened_over};
use crate::messages::received;
use crate::objects::say_objects;
use crate::setup::Setup;
use zot_cases::{Answer, cut, number};
use zot_model::{Reply, Request, fits, has_values, real_values};
use zot_noting::NotingStore;
use zot_rows::Rows;

/// What rows answer to the requests of messages at the moment 7, with `; ` between two, over parts without objects. `N*
/// MESSAGE` is asked N times, and the last answer counts.
pub fn table(answer: &mut Answer, given: &str) {
    let setup = Setup::read(answer, "on 7");
    ask_opened(answer, &setup, "", given);
}

/// `SETUP; OBJECTS; MESSAGE; ..`: what rows answer to the requests of messages, over parts with these objects. The calls that
/// fail are counted from the first one after the opening. `reopen` in the place of a message closes the rows and opens them
/// again over the same parts.
pub fn rows(answer: &mut Answer, given: &str) {
    let (head, rest) = cut(given, "; ");
    let (list, messages) = cut(rest, "; ");
    let setup = Setup::read(answer, head);
    ask_opened(answer, &setup, list, messages);
}

/// `SETUP; OBJECTS; MESSAGE; ..`: the objects that the parts have after the requests of messages.
pub fn left(answer: &mut Answer, given: &str) {
    let (head, rest) = cut(given, "; ");
    let (list, messages) = cut(rest, "; ");
    let setup = Setup::read(answer, head);
    let mut replies = Answer::new(answer.alloc());
    match ask_opened(&mut replies, &setup, list, messages) {
        Some(rows) => say_objects(answer, &close(rows)),
        None => answer.fail("not opened; "),
    }
    answer.confirm(!replies.is_wrong(), "wrong requests; ");
}

// Adds what rows answer to the requests of messages, over parts with the objects of a list, and gives the rows.
fn ask_opened(
    answer: &mut Answer,
    setup: &Setup,
    list: &str,
    messages: &str,
) -> Option<Rows<NotingStore>> {
    let mut rows = opened(answer, setup, list)?;
    for step in messages.split("; ") {
        answer.begin();
        if step == "reopen" {
            rows = opened_over(answer, close(rows), setup)?;
            answer.say("reopened");
        } else {
            ask_message(answer, &mut rows, step, setup.moment);
        }
    }
    Some(rows)
}

// Adds what rows answer to the request of a message, asked once or `N*` times.
fn ask_message(answer: &mut Answer, rows: &mut Rows<NotingStore>, step: &str, moment: u64) {
    let (times, message) = step.split_once("* ").unwrap_or(("1", step));
    let message = answer.read(message);
    match received(answer.alloc(), message.as_slice()) {
        Some(request) => ask(answer, rows, &request, number(times), moment),
        None => answer.fail("no request"),
    }
}

// Adds what rows answer to a request that is asked so many times.
fn ask(
    answer: &mut Answer,
    rows: &mut Rows<NotingStore>,
    request: &Request,
    times: u64,
    moment: u64,
) {
    let alloc = answer.alloc();
    has_values(request);
    answer.check(request.copy(alloc), request, "the copy is another request");
    for _ in 1..times {
        reply_of(answer, rows, request, moment);
    }
    let reply = reply_of(answer, rows, request, moment);
    real_values(&reply);
    answer.check(reply.copy(alloc), &reply, "the copy is another reply");
    answer.show(&reply);
}

/// The reply to a request, which has to fit it.
pub fn reply_of(
    answer: &mut Answer,
    rows: &mut Rows<NotingStore>,
    request: &Request,
    moment: u64,
) -> Reply {
    let Some(_) = &request.name else {
        answer.fail("no name");
        return Reply::Base;
    };
    let reply = rows.reply_to(answer.alloc(), request, moment);
    answer.confirm(fits(request, &reply), "the reply doesn't fit");
    reply
}
