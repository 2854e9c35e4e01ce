//! Cases of whole connections through the program's commands: the status, the note and what is written.
//!
//! A case as `half-a-line-end: pipe 3 \r => 4 [zotd: torn 1\n]` runs `pipe` over an input in memory.
#![tactic(auto)]

mod faults;
mod rows;
mod running;

use std::io;
use std::process::ExitCode;
use zot_cases::{Answer, Case, run};
use zot_session::{end_is_one, requests_are_read};

// Makes the call of a case.
fn call(case: &Case, answer: &mut Answer) {
    let given = case.given;
    match case.call {
        "pipe" => running::pipe(answer, given),
        "words" => running::words(answer, given),
        "arguments" => running::arguments(answer, given),
        "cut" => faults::cut_off(answer, given),
        "failing-reads" => faults::failing(answer, given, false),
        "failing-writes" => faults::failing(answer, given, true),
        "failing-notes" => faults::failing_notes(answer, given),
        "moments" => rows::moments(answer, given),
        "connections" => rows::connections(answer, given),
        _ => answer.fail("no such call"),
    }
}

fn main(rt: HostRuntime) -> io::Result<ExitCode> {
    end_is_one();
    requests_are_read();
    run(&rt, call)
}
