//! Cases of shards of digests, of pools, and of cache records.
//!
//! A case as `one-whole: record W a\n => a whole` makes the call `read_record`, and `record_text` has to give the text back.
#![tactic(auto)]

mod calls;
mod changes;
mod many;
mod objects;
mod plain_pool;
mod pool;
mod pools;
mod random;
mod records;
mod scripts;

use std::io;
use std::process::ExitCode;
use zot_cases::{Answer, Case, run};
use zot_contents::{
    changes_are_local, holders_follow, own_entries_are_a_run, owner_decides, shards_answer_as_one,
    tight_means,
};
use zot_links::{
    held_elsewhere, object_calls_are_local, record_calls_are_local, what_stands_means,
};

// Makes the call of a case.
fn call(case: &Case, answer: &mut Answer) {
    match case.call {
        "record" => records::record(answer, case.given),
        "long" => records::long(answer, case.given),
        "open" => scripts::opened(answer, case.given),
        "script" => scripts::script(answer, case.given),
        "row" => changes::row(answer, case.given),
        "faults" => changes::faults(answer, case.given),
        "many" => many::many(answer, case.given),
        "pool" => pools::pool(answer, case.given),
        _ => answer.fail("no such call"),
    }
}

fn main(rt: HostRuntime) -> io::Result<ExitCode> {
    // The laws that hold of all digests' objects, of which the cases are some.
    object_calls_are_local();
    record_calls_are_local();
    held_elsewhere();
    what_stands_means();
    tight_means();
    // The laws of who holds what, whichever shards are asked and whoever asks.
    changes_are_local();
    shards_answer_as_one();
    own_entries_are_a_run();
    holders_follow();
    owner_decides();
    run(&rt, call)
}
