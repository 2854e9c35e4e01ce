//! Cases of the outside: stores over folders and in memory, sources, sinks and clocks.
//!
//! A case as `clock-stands: clock 7 => (7, 7)` makes calls on one value, one after another.
#![tactic(auto)]

mod folders;
mod memory;
mod parts;
mod scripts;
mod streams;

use std::io;
use std::process::ExitCode;
use zot_cases::{Answer, Case, run};
use zot_fakes::{SteadyStore, empty_list_fails_none};
use zot_outside::{
    append_changes, calls_join, calls_leave_others, change_is_one, copy_changes, delete_changes,
    listed_as_held, listing_ends, next_lists, put_changes,
};

// Makes the call of a case.
fn call(rt: HostRuntime, case: &Case, answer: &mut Answer) {
    let given = case.given;
    match case.call {
        "alike" => folders::alike(rt, case, answer),
        "folder" => folders::folder(rt, case, answer),
        "alone" => folders::alone(rt, case, answer),
        "memory" => scripts::answers(answer, &mut SteadyStore::new(rt.alloc()), given),
        "failing" => memory::failing(answer, given),
        "clock" => memory::clock(answer, given),
        "split" => parts::split(answer, given),
        "source" => streams::source(answer, given),
        "steady" => streams::steady(answer, given),
        "sink" => streams::sink(answer, given),
        "laws" => laws(answer),
        _ => answer.fail("no such call"),
    }
}

// The laws that hold of all stores, each called once.
fn laws(answer: &mut Answer) {
    put_changes();
    append_changes();
    copy_changes();
    delete_changes();
    calls_leave_others();
    calls_join();
    change_is_one();
    next_lists();
    listed_as_held();
    listing_ends();
    empty_list_fails_none();
    answer.say("hold");
}

fn main(rt: HostRuntime) -> io::Result<ExitCode> {
    run(&rt, |case, answer| call(rt, case, answer))
}
