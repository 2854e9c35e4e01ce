//! What is written of a repository in a store.
use crate::rows::objects_of;
use std::alloc::Global;
use zot_cases::{Answer, cut, word};
use zot_fakes::MemoryStore;
use zot_layout::{IndexState, empty_index, forget, make_known, put_index, read_index};
use zot_names::RepoName;
use zot_outside::StoreResult;

/// `CALLS FAILING; INDEX; PATH BYTES; ..`: what each of these calls answers, of which the store's with these numbers fail, and
/// what the store holds then. The repository is `a`. `new` makes it known with an empty index, `known` with what INDEX says,
/// `index` puts what that says, and `forget` deletes the marker.
pub fn writes(answer: &mut Answer, given: &str) {
    let (asked, given) = cut(given, "; ");
    let (index, objects) = cut(given, "; ");
    let failing = answer.numbers(word(asked, 1));
    let objects = objects_of(answer, objects);
    let state = state_of(answer, index);
    let Ok(name) = RepoName::read(answer.alloc(), "a") else {
        return answer.fail("no name");
    };
    match MemoryStore::new(answer.alloc(), objects, failing) {
        Ok(store) => each_call(answer, store, word(asked, 0), &name, &state),
        Err(_) => answer.fail("out of memory"),
    }
}

// What an index says, which may be empty.
fn state_of(answer: &mut Answer, index: &str) -> IndexState {
    let bytes = answer.read(index);
    let alloc = answer.alloc();
    let read = read_index(alloc, "a/index.json", bytes.as_slice(), 7);
    read.unwrap_or(empty_index(alloc))
}

// Makes each of these calls.
fn each_call(
    answer: &mut Answer,
    mut store: MemoryStore,
    calls: &str,
    name: &RepoName,
    state: &IndexState,
) {
    for call in calls.split(',') {
        answer.begin();
        let made = write(answer.alloc(), &mut store, call, name, state);
        answer.outcome(&made);
    }
    stored(answer, &store);
}

// Makes one call.
fn write(
    alloc: Global,
    store: &mut MemoryStore,
    call: &str,
    name: &RepoName,
    state: &IndexState,
) -> StoreResult<()> {
    match call {
        "new" => make_known(store, alloc, name, &empty_index(alloc)),
        "known" => make_known(store, alloc, name, state),
        "index" => put_index(store, alloc, name, state),
        _ => forget(store, alloc, name),
    }
}

// Adds each object of a store with its bytes.
fn stored(answer: &mut Answer, store: &MemoryStore) {
    let alloc = answer.alloc();
    for (path, bytes) in answer.keep(store.list(alloc), Vec::new(alloc)) {
        answer.begin();
        answer.say(path.as_str());
        answer.say(" ");
        answer.write(bytes.as_slice());
    }
}
