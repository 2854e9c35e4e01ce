//! Rows of image layouts in a store.
use crate::layouts::says;
use zot_cases::{Answer, cut, number, word};
use zot_digest::{Bytes, Words};
use zot_fakes::MemoryStore;
use zot_layout::{IndexState, LayoutError, open_row};
use zot_names::RepoName;

/// The key of the names.
const KEY: [u8; 16] = [0; 16];

/// The moment of opening.
const MOMENT: u64 = 7;

/// What the rows of a cluster hold in a store, row by row: `MEMBERS FAILING; PATH BYTES; ..`, where the calls of the store with
/// these numbers fail. Of each repository its name and row, its manifests and its tags.
pub fn rows(answer: &mut Answer, given: &str) {
    let (asked, objects) = cut(given, "; ");
    let failing = answer.numbers(word(asked, 1));
    let objects = objects_of(answer, objects);
    match MemoryStore::new(answer.alloc(), objects, failing) {
        Ok(store) => each_row(answer, store, number(word(asked, 0))),
        Err(_) => answer.fail("out of memory"),
    }
}

/// The objects of a store.
pub fn objects_of(answer: &mut Answer, given: &str) -> Vec<(String, Vec<u8>)> {
    let mut objects = Vec::new(answer.alloc());
    for object in given.split("; ") {
        let (path, bytes) = cut(object, " ");
        let path = answer.text_of(path);
        let bytes = answer.read(bytes);
        let pushed = objects.push((path, bytes));
        answer.keep(pushed, ());
    }
    objects
}

// What each row of so many members holds.
fn each_row(answer: &mut Answer, mut store: MemoryStore, members: u64) {
    let members = members.clamp(1, 8) as u32;
    for row in 0..8 * members {
        let alloc = answer.alloc();
        match open_row(alloc, &mut store, row, members, &KEY, MOMENT) {
            Ok(repos) => {
                for repo in &repos {
                    opened(answer, &repo.0, &repo.1, row);
                }
            }
            Err(error) => why(answer, &error, &store),
        }
    }
}

// A repository that was opened.
fn opened(answer: &mut Answer, name: &RepoName, index: &IndexState, row: u32) {
    answer.begin();
    answer.say(name.as_str());
    answer.say(" in row ");
    answer.tell(&row);
    says(answer, index);
}

// Why a row wasn't opened.
fn why(answer: &mut Answer, error: &LayoutError, store: &MemoryStore) {
    answer.begin();
    match error {
        LayoutError::BadIndex { path, text } => carries(answer, "bad index ", path, text, store),
        LayoutError::BadMeta { path, text } => carries(answer, "bad meta ", path, text, store),
        LayoutError::Failed => answer.say("failed"),
        LayoutError::NoMemory => answer.fail("out of memory"),
    }
}

// An error that has to carry the bytes of the path's object.
fn carries(answer: &mut Answer, name: &str, path: &Words, text: &Bytes, store: &MemoryStore) {
    answer.say(name);
    answer.say(path.as_str());
    match store.object(answer.alloc(), path.as_str()) {
        Ok(Some(bytes)) => answer.confirm(bytes.as_slice() == text.as_slice(), " other bytes"),
        _ => answer.fail(" no object"),
    }
}
