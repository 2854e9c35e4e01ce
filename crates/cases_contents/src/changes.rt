//! Changes of what is held: the calls of the store that each makes, and what is held where one of them fails.
use crate::objects::say_path;
use crate::scripts::{open, play, say_held, store_of};
use std::alloc::Global;
use zot_cases::{Answer, cut};
use zot_noting::NotingStore;

// A script that was played: the store after it, and its answers.
#[derive(Drop)]
struct Played {
    store: NotingStore,
    answers: Answer,
}

/// `OBJECTS; STEP; ..`: the calls of the store that the last step makes, over a store of these objects, with dedupe.
pub fn row(answer: &mut Answer, given: &str) {
    let (list, steps) = cut(given, "; ");
    let (before, _) = cut_last(steps);
    let Some(first) = replay(answer, list, before, 0) else {
        return;
    };
    let Some(whole) = replay(answer, list, steps, 0) else {
        return;
    };
    for note in whole.store.notes().iter().skip(first.store.notes().len()) {
        answer.begin();
        say_note(answer, note.as_str());
    }
}

/// `OBJECTS; STEP; ..`: for each call of the store that the last step makes, what the step answers where this call fails, and
/// whether then by a shard that is opened anew all is held as before the step (`old`), or as after it where no call fails (`new`).
pub fn faults(answer: &mut Answer, given: &str) {
    let (list, steps) = cut(given, "; ");
    let (before, _) = cut_last(steps);
    let Some(first) = replay(answer, list, before, 0) else {
        return;
    };
    let Some(whole) = replay(answer, list, steps, 0) else {
        return;
    };
    let calls = first.store.store().calls()..whole.store.store().calls();
    let old = held(answer.alloc(), first.store);
    let new = held(answer.alloc(), whole.store);
    answer.confirm(old.as_str() != new.as_str(), "no change; ");
    for call in calls {
        answer.begin();
        say_failed(answer, list, steps, call.saturating_add(1), &old, &new);
    }
}

// Adds what the last step answers where a call fails, and what is held then.
fn say_failed(answer: &mut Answer, list: &str, steps: &str, call: u64, old: &Answer, new: &Answer) {
    let Some(failed) = replay(answer, list, steps, call) else {
        return;
    };
    answer.say(cut_last(failed.answers.as_str()).1);
    let held = held(answer.alloc(), failed.store);
    if held.as_str() == old.as_str() {
        answer.say(" old");
    } else if held.as_str() == new.as_str() {
        answer.say(" new");
    } else {
        answer.fail(" third");
    }
}

// What is held by a store whose shard is opened anew.
fn held(alloc: Global, store: NotingStore) -> Answer {
    let mut held = Answer::new(alloc);
    say_held(&mut held, store);
    held
}

// Plays a script over a store of these objects of which the call of a number fails, if it isn't 0.
fn replay(answer: &mut Answer, list: &str, steps: &str, failing: u64) -> Option<Played> {
    let mut numbers = Vec::new(answer.alloc());
    answer.keep(numbers.push(failing), ());
    let store = store_of(answer, list, numbers)?;
    match open(answer.alloc(), store, true) {
        Ok(pool) => {
            let mut answers = Answer::new(answer.alloc());
            let store = play(&mut answers, pool, steps);
            answer.confirm(!answers.is_wrong(), "wrong steps");
            Some(Played { store, answers })
        }
        Err(_) => {
            answer.fail("not opened");
            None
        }
    }
}

// What stands before the last `; ` of a text, and what stands after it, which is all of it where there is none.
fn cut_last(text: &str) -> (&str, &str) {
    text.rsplit_once("; ").unwrap_or(("", text))
}

// Adds a note.
fn say_note(answer: &mut Answer, note: &str) {
    let mut is_first = true;
    for word in note.split(' ') {
        if is_first {
            answer.say(word);
        } else {
            answer.say(" ");
            say_path(answer, word);
        }
        is_first = false;
    }
}
