//! Cases of messages: where heads end, what they say, bodies in chunks, and the requests that messages ask.
//!
//! A case as `front-bare-feed: front GET / HTTP/1.1\n|GET => (Head(17), 17)` makes the call `find_head`.
#![tactic(auto)]

mod bodies;
mod heads;
mod paths;
mod routes;

use std::io;
use std::process::ExitCode;
use zot_cases::{Answer, Case, run};
use zot_head::{
    front_is_one, front_stays, head_ends_alone, head_ends_as_read, message_takes,
    only_sent_is_read, refused_for_its_bytes, sent_is_read,
};
use zot_route::{Target, outcome_is_one, outcomes_are_sound, path_is_one};

// Makes the call of a case.
fn call(case: &Case, answer: &mut Answer) {
    let bytes = answer.read(case.given);
    let bytes = bytes.as_slice();
    match case.call {
        "front" => heads::front(answer, bytes),
        "head" => heads::head(answer, bytes),
        "says" => heads::says(answer, bytes),
        "parts" => heads::parts(answer, bytes),
        "body" => bodies::body(answer, bytes),
        "pieces" => bodies::pieces(answer),
        "path" => paths::path(answer, case.given),
        "query" => answer.write(Target::read(case.given).query()),
        "methods" => routes::methods(answer, bytes),
        "route" => routes::asked(answer, bytes),
        "media" => routes::media(answer, bytes),
        _ => answer.fail("no such call"),
    }
}

fn main(rt: HostRuntime) -> io::Result<ExitCode> {
    // The laws that hold of all messages, of which the cases are some.
    front_is_one();
    front_stays();
    message_takes();
    head_ends_alone();
    head_ends_as_read();
    sent_is_read();
    only_sent_is_read();
    refused_for_its_bytes();
    path_is_one();
    outcome_is_one();
    outcomes_are_sound();
    run(&rt, call)
}
