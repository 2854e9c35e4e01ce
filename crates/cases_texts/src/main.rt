//! Cases of values: digests, owned lists, names, tags, ids, globs, media and documents, and of image layouts.
//!
//! A case as `name-two-components: name a/b => a/b` makes the call `RepoName::read` and others that have to agree with it.
#![tactic(auto)]

mod digests;
mod layouts;
mod manifests;
mod names;
mod readings;
mod rows;
mod values;
mod writes;

use std::io;
use std::process::ExitCode;
use zot_cases::{Answer, Case, run};
use zot_digest::ordered_as_text;
use zot_layout::{
    a_layout_lies_at_two_paths, a_marker_makes_known, a_marker_tells_what_is_known,
    a_path_is_of_one_repository, a_write_is_of_one_repository, an_index_is_the_state,
    other_paths_leave_a_repository, the_later_write_counts, the_own_marker_is_read,
    what_is_not_stored_leaves_the_row, what_is_read_is_an_index,
    what_is_stored_elsewhere_leaves_it, what_is_written_is_the_rows, without_a_marker_it_is_fresh,
};
use zot_media::{annotations_ascend, only_texts_are_read, text_is_read};
use zot_names::{bytes_of_names, bytes_of_tags, components_of_names};

// Makes the call of a case.
fn call(case: &Case, answer: &mut Answer) {
    let given = case.given;
    match case.call {
        "digest" => digests::digest(answer, given),
        "digest_text" => digests::text(answer, given),
        "digest_parts" => digests::parts(answer, given),
        "bytes" => values::bytes(answer, given),
        "words" => values::words(answer, given),
        "id" => values::id(answer, given),
        "id_text" => values::id_text(answer, given),
        "order" => values::order(answer, given),
        "name" => names::name(answer, given),
        "tag" => names::tag(answer, given),
        "tags" => names::tags(answer, given),
        "glob" => names::glob(answer, given),
        "media" => manifests::media(answer, given),
        "document" => manifests::document(answer, given),
        "reference" => manifests::reference(answer, given),
        "manifest" => readings::manifest(answer, given),
        "descriptors" => readings::descriptors(answer, given),
        "index" => layouts::index(answer, given),
        "written" => layouts::written(answer, given),
        "marker" => layouts::marker(answer, given),
        "rows" => rows::rows(answer, given),
        "writes" => writes::writes(answer, given),
        _ => answer.fail("no such call"),
    }
}

fn main(rt: HostRuntime) -> io::Result<ExitCode> {
    // The laws that hold of all texts, of which the cases are some.
    ordered_as_text();
    bytes_of_names();
    bytes_of_tags();
    components_of_names();
    text_is_read();
    only_texts_are_read();
    annotations_ascend();
    what_is_read_is_an_index();
    // And of all rows.
    a_path_is_of_one_repository();
    other_paths_leave_a_repository();
    a_marker_makes_known();
    an_index_is_the_state();
    without_a_marker_it_is_fresh();
    a_write_is_of_one_repository();
    what_is_stored_elsewhere_leaves_it();
    // And of what is written of one repository.
    the_own_marker_is_read();
    a_layout_lies_at_two_paths();
    a_marker_tells_what_is_known();
    the_later_write_counts();
    what_is_written_is_the_rows();
    what_is_not_stored_leaves_the_row();
    run(&rt, call)
}
