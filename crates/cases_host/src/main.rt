//! Cases of hosts: of the commands that read their files, the system's, which lie in `data/`, and those of hosts in memory; and of their parts.
//!
//! A case as `example: system verify,example.json, => 0 []ok 2 members\n` runs a command over the system.
#![tactic(auto)]

mod hosts;
mod parts;
mod piping;
mod running;

use std::io;
use std::process::ExitCode;
use zot_cases::{Answer, Case, run};

// Makes the call of a case.
fn call(rt: HostRuntime, case: &Case, answer: &mut Answer) {
    let given = case.given;
    match case.call {
        "system" => running::system(rt, answer, given),
        "memory" => running::memory(answer, given),
        "twice" => running::twice(answer, given),
        "failing-write" => running::failing_write(answer, given),
        "failing-note" => running::failing_note(answer, given),
        "failing-host" => running::failing_host(answer, given),
        "parts" => parts::parts(answer, given),
        "cluster" => parts::cluster(answer, given),
        "upstreams" => parts::upstreams(answer, given),
        "scratch" => parts::scratch(answer, given),
        "folder" => parts::folder(rt, case, answer),
        "runs" => piping::runs(answer, given),
        "object" => piping::with_object(answer, given),
        "failing" => piping::failing(answer, given),
        "hosts" => piping::hosts(answer, given),
        "folders" => piping::folders(rt, case, answer),
        _ => answer.fail("no such call"),
    }
}

fn main(rt: HostRuntime) -> io::Result<ExitCode> {
    run(&rt, |case, answer| call(rt, case, answer))
}
