//! Cases of the rows of a cluster: what they answer, what lies in their parts then, what comes where calls of the parts fail, and how they are opened. Beside them the uploads of one repository, and refusals.
//!
//! A case as `mount-not-held: rows on 7; ; POST /v2/b/blobs/uploads/?mount=$&from=a HTTP/1.1|| => Session { .. }` asks requests, one after another.
#![tactic(auto)]

mod by_hand;
mod cluster;
mod driven;
mod hand;
mod holdings;
mod kept;
mod messages;
mod objects;
mod openings;
mod parts;
mod place;
mod pushes;
mod refusals;
mod setup;
mod stepped;
mod table;
mod turns;
mod uploads;

use std::io;
use std::process::ExitCode;
use zot_cases::{Answer, Case, run};
use zot_model::{
    answers_fit, common_refusals_fit, manifest_comes_back, needed_blobs_stay, pages_are_the_list,
    repositories_stand_alone,
};
use zot_repo::other_rows_stay;
use zot_uploads::{few_are_open, one_answer, others_stay};

// Makes the call of a case.
fn call(case: &Case, answer: &mut Answer) {
    match case.call {
        "uploads" => uploads::uploads(answer, case.given),
        "table" => table::table(answer, case.given),
        "rows" => table::rows(answer, case.given),
        "left" => table::left(answer, case.given),
        "opening" => openings::opening(answer, case.given),
        "openings" => openings::openings(answer, case.given),
        "held" => holdings::held(answer, case.given),
        "push" => pushes::push(answer, case.given),
        "hand" => by_hand::hand(answer, case.given),
        "turns" => turns::turns(answer, case.given),
        "refusal" => refusals::refusal(answer, case.given),
        _ => answer.fail("no such call"),
    }
}

fn main(rt: HostRuntime) -> io::Result<ExitCode> {
    // The laws that hold of all calls, of which the cases are some.
    answers_fit();
    common_refusals_fit();
    repositories_stand_alone();
    needed_blobs_stay();
    pages_are_the_list();
    manifest_comes_back();
    one_answer();
    others_stay();
    few_are_open();
    other_rows_stay();
    run(&rt, call)
}
