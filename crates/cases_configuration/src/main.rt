//! Cases of what an operator writes down, the configuration of a cluster and the rules of retention, and of which member owns
//! a repository.
//!
//! A case as `pattern-inside: pattern 1 v1.2 => finds` makes the call `compile_pattern`, and asks whether the pattern finds
//! the tag.
#![tactic(auto)]

mod configurations;
mod owners;
mod policies;

use std::io;
use std::process::ExitCode;
use zot_cases::{Answer, Case, run};
use zot_config::{read_is_one, values_have_trees};

// Makes the call of a case.
fn call(case: &Case, answer: &mut Answer) {
    let given = case.given;
    match case.call {
        "config" => configurations::config(answer, given),
        "hash" => owners::hash(answer, given),
        "placed" => owners::placed(answer, given),
        "named" => owners::named(answer, given),
        "pattern" => policies::pattern(answer, given),
        "compile" => policies::compiled(answer, given),
        "kept" => policies::kept(answer, given),
        "policy" => policies::policy(answer, given),
        _ => answer.fail("no such call"),
    }
}

fn main(rt: HostRuntime) -> io::Result<ExitCode> {
    // The laws that hold of all configurations, of which the cases are some.
    read_is_one();
    values_have_trees();
    run(&rt, call)
}
