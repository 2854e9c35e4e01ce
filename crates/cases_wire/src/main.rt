//! Cases of the wire: requests and replies read, and spelled again, members in memory, and members that ask each other.
//!
//! A case as `split-no-fields: split HTTP/1.1 204 No Content|| => (204, 0)` makes the calls `split_reply` and `join_head`.
#![tactic(auto)]

mod members;
mod peers;
mod replies;
mod requests;

use std::io;
use std::process::ExitCode;
use zot_cases::{Answer, Case, run};
use zot_delivery::{request_is_one, request_is_read};
use zot_reply::{alike_itself, only_alike_replies};
use zot_spell::{alike_replies, head_then_body, reply_head_then_body};

// Makes the call of a case.
fn call(case: &Case, answer: &mut Answer) {
    match case.call {
        "request" => requests::request(answer, case.given),
        "long" => requests::long(answer, case.given),
        "peer" => peers::peer(answer, case.given),
        "members" => members::members(answer, case.given),
        "through" => members::through(answer, case.given),
        "asking" => members::asking(answer, case.given),
        "reply" => replies::reply(answer, case.given),
        "made" => replies::made(answer, case.given),
        "split" => replies::split(answer, case.given),
        _ => answer.fail("no such call"),
    }
}

fn main(rt: HostRuntime) -> io::Result<ExitCode> {
    // The laws that hold of all requests and replies, of which the cases are some.
    request_is_read();
    request_is_one();
    head_then_body();
    alike_replies();
    reply_head_then_body();
    only_alike_replies();
    alike_itself();
    run(&rt, call)
}
