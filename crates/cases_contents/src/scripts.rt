//! Scripts of calls under the digest of `abc` on its shard, over a store in memory.
use crate::calls::{call_of, say_reply};
use crate::objects::{objects_of, say_objects, say_path};
use crate::pool::Pool;
use std::alloc::Global;
use zot_cases::{Answer, cut, word};
use zot_contents::{Holding, LayoutFault, PoolCall, PoolReply, Unopened, shard_of};
use zot_digest::{Digest, digest_of};
use zot_noting::NotingStore;

/// The digest of the scripts.
pub fn subject() -> Digest {
    digest_of(b"abc")
}

/// `FLAG NUMBERS; OBJECTS; STEP; ..`: the answers of steps, with dedupe where the flag is `on`, over a store of these objects whose
/// calls of these numbers fail, and the objects that are there then.
pub fn script(answer: &mut Answer, given: &str) {
    let (head, rest) = cut(given, "; ");
    let (list, steps) = cut(rest, "; ");
    let failing = answer.numbers(word(head, 1));
    let Some(store) = store_of(answer, list, failing) else {
        return;
    };
    match open(answer.alloc(), store, word(head, 0) == "on") {
        Ok(pool) => {
            let store = play(answer, pool, steps);
            say_objects(answer, store.store());
        }
        Err(unopened) => say_fault(answer, &unopened.fault),
    }
}

/// `OBJECTS`: what repositories hold where a store has these objects, or why its shard isn't opened.
pub fn opened(answer: &mut Answer, given: &str) {
    let failing = Vec::new(answer.alloc());
    if let Some(store) = store_of(answer, given, failing) {
        say_held(answer, store);
    }
}

/// A store of these objects that notes its calls, of which those of these numbers fail.
pub fn store_of(answer: &mut Answer, list: &str, failing: Vec<u64>) -> Option<NotingStore> {
    let objects = objects_of(answer, &subject(), list);
    match NotingStore::new(answer.alloc(), objects, failing, true) {
        Ok(store) => Some(store),
        Err(_) => {
            answer.fail("out of memory");
            None
        }
    }
}

/// Opens the shard of the digest of `abc` over a store.
pub fn open(
    alloc: Global,
    store: NotingStore,
    dedupe: bool,
) -> Result<Pool, Unopened<NotingStore>> {
    Pool::open(store, alloc, shard_of(&subject()), dedupe)
}

/// Makes the steps of a script, and adds their answers. Gives the store back.
pub fn play(answer: &mut Answer, mut pool: Pool, steps: &str) -> NotingStore {
    for step in steps.split("; ") {
        if !step.is_empty() {
            answer.begin();
            let call = call_of(answer, &subject(), step);
            let reply = pool.ask(answer.alloc(), &call);
            say_reply(answer, &reply);
        }
    }
    pool.close()
}

/// Adds what repositories hold by a store whose shard is opened anew, or why it isn't opened.
pub fn say_held(answer: &mut Answer, store: NotingStore) {
    match open(answer.alloc(), store, true) {
        Ok(mut pool) => match pool.ask(answer.alloc(), &PoolCall::Holdings) {
            PoolReply::Held(list) => say_each(answer, &mut pool, list.as_slice()),
            reply => say_reply(answer, &reply),
        },
        Err(unopened) => say_fault(answer, &unopened.fault),
    }
}

// Adds what each repository holds.
fn say_each(answer: &mut Answer, pool: &mut Pool, list: &[Holding]) {
    answer.say("held");
    for holding in list {
        answer.say(" ");
        answer.say(holding.name.as_str());
        answer.say("=");
        say_content(answer, pool, holding);
    }
}

// Adds the bytes of a holding.
fn say_content(answer: &mut Answer, pool: &mut Pool, holding: &Holding) {
    let Ok(name) = holding.name.copy(answer.alloc()) else {
        answer.fail("out of memory");
        return;
    };
    match pool.ask(answer.alloc(), &PoolCall::Read(name, holding.digest)) {
        PoolReply::Content(bytes) => answer.write(bytes.as_slice()),
        reply => say_reply(answer, &reply),
    }
}

// Adds why a shard wasn't opened.
fn say_fault(answer: &mut Answer, fault: &LayoutFault) {
    answer.tell(fault);
    if let LayoutFault::BadMeta { path, text } = fault {
        answer.say(": ");
        say_path(answer, path.as_str());
        answer.say("=");
        answer.write(text.as_slice());
    }
}
