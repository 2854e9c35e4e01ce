//! A store in memory that fails some calls, and a clock that stands still.
use crate::scripts::answers;
use zot_cases::{Answer, cut, number, word};
use zot_fakes::{HandClock, MemoryStore};
use zot_outside::Clock;

/// `NUMBERS PATH=BYTES,..; SCRIPT`: the answers of a store of these objects whose calls of these numbers fail, how many calls
/// were made, each object that it has then, and how many calls were made.
pub fn failing(answer: &mut Answer, given: &str) {
    let (made, script) = cut(given, "; ");
    let failing = answer.numbers(word(made, 0));
    let mut objects = Vec::new(answer.alloc());
    for object in word(made, 1).split(',') {
        let (path, bytes) = cut(object, "=");
        let object = (answer.text_of(path), answer.read(bytes));
        answer.keep(objects.push(object), ());
    }
    if let Ok(mut store) = MemoryStore::new(answer.alloc(), objects, failing) {
        answers(answer, &mut store, script);
        answer.begin();
        answer.show(&store.calls());
        look(answer, &store);
        answer.begin();
        answer.show(&store.calls());
    }
}

// Adds each object of a store.
fn look(answer: &mut Answer, store: &MemoryStore) {
    let alloc = answer.alloc();
    for (path, bytes) in answer.keep(store.list(alloc), Vec::new(alloc)) {
        answer.begin();
        answer.say(path.as_str());
        answer.say("=");
        answer.write(bytes.as_slice());
    }
}

/// What a clock that was set to a moment answers twice.
pub fn clock(answer: &mut Answer, given: &str) {
    let mut clock = HandClock::new(number(given));
    answer.show(&(clock.now(), clock.now()));
}
