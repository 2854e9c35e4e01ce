//! Cases of what a collection removes from a repository, and of what a scrub finds in one.
//!
//! A case as `sweep-subject: sweep 200 10 | m@100,^s | m@100 s@100 => s` makes the call `sweepable` and says what goes.
#![tactic(auto)]

mod collections;
mod graphs;
mod manifests;
mod policies;
mod scrubs;

use std::io;
use std::process::ExitCode;
use std::thread::Threads;
use zot_cases::{Answer, Case, run};
use zot_collect::{
    child_stays, collected_again, removed_once, retired_by_rules, swept_again, swept_one_by_one,
};

// Makes the call of a case.
fn call(rt: &(impl Threads + Sync), case: &Case, answer: &mut Answer) {
    let given = case.given;
    match case.call {
        "retire" => collections::retired(answer, given),
        "sweep" => collections::swept(answer, given),
        "graph" => graphs::graph(answer, given),
        "scrub" => scrubs::scrubbed(rt, answer, given),
        _ => answer.fail("no such call"),
    }
}

// The laws that hold of all collections, each called once.
fn laws() {
    child_stays();
    collected_again();
    removed_once();
    retired_by_rules();
    swept_again();
    swept_one_by_one();
}

fn main(rt: HostRuntime) -> io::Result<ExitCode> {
    laws();
    run(&rt, |case, answer| call(&rt, case, answer))
}
