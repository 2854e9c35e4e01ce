//! Scripts of calls on a pool over stores in memory.
ghost use Rattle.std.specs.Prelude.{IsSome, IsTrue};
ghost use Rattle.zot_contents.specs.Holders.{digest_in};

use crate::calls::{call_of, say_reply};
use crate::objects::{objects_of, say_objects, say_path};
use crate::scripts::subject;
use std::alloc::Global;
use zot_cases::{Answer, cut, number, word};
use zot_contents::{HoldingList, PoolCall, PoolReply, SHARDS};
use zot_digest::{Bytes, Digest, digest_of};
use zot_fakes::MemoryStore;
use zot_pool::{Pool, PoolError, PoolOpenError, UnopenedPool};

/// `FLAG PART NUMBERS; OBJECTS; STEP; ..`: the answers of steps, with dedupe where the flag is `on`, where one part has these objects of
/// `abc` and its calls of these numbers fail, and the objects that each part has then.
pub fn pool(answer: &mut Answer, given: &str) {
    let (head, rest) = cut(given, "; ");
    let (list, steps) = cut(rest, "; ");
    let parts = parts_of(answer, number(word(head, 1)), word(head, 2), list);
    if parts.len() != SHARDS as usize {
        answer.fail("out of memory");
        return;
    }
    match Pool::open(parts, answer.alloc(), word(head, 0) == "on") {
        Ok(pool) => {
            let parts = play(answer, pool, steps);
            say_parts(answer, parts.as_slice());
        }
        Err(unopened) => say_unopened(answer, &unopened),
    }
}

// The parts, of which one has objects and fails.
fn parts_of(answer: &mut Answer, place: u64, failing: &str, list: &str) -> Vec<MemoryStore> {
    let alloc = answer.alloc();
    let mut parts = Vec::new(alloc);
    for n in 0..SHARDS {
        let (objects, numbers) = if n as u64 == place {
            (
                objects_of(answer, &subject(), list),
                answer.numbers(failing),
            )
        } else {
            (Vec::new(alloc), Vec::new(alloc))
        };
        if let Ok(part) = MemoryStore::new(alloc, objects, numbers) {
            answer.keep(parts.push(part), ());
        }
    }
    parts
}

// Makes the steps, and gives the parts back.
fn play(answer: &mut Answer, mut pool: Pool<MemoryStore>, steps: &str) -> Vec<MemoryStore> {
    for step in steps.split("; ") {
        if !step.is_empty() {
            answer.begin();
            let reply = reply_to(answer, &mut pool, step);
            say_reply(answer, &reply);
        }
    }
    pool.close()
}

// The answer of a step: `holdings SHARD`, or `TEXT CALL` on the digest of a text, or `call TEXT CALL` by the one call for all.
fn reply_to(answer: &mut Answer, pool: &mut Pool<MemoryStore>, step: &str) -> PoolReply {
    let (first, rest) = cut(step, " ");
    match first {
        "holdings" => listed(answer, pool, number(rest)),
        "call" => {
            let (text, step) = cut(rest, " ");
            let call = on_text(answer, text, step);
            ask(answer, pool, &call)
        }
        text => {
            let call = on_text(answer, text, rest);
            made(answer.alloc(), pool, &call)
        }
    }
}

// The call on the digest of a text.
fn on_text(answer: &mut Answer, text: &str, step: &str) -> PoolCall {
    let bytes = answer.read(text);
    call_of(answer, &digest_of(bytes.as_slice()), step)
}

// The answer to a call.
fn ask(answer: &mut Answer, pool: &mut Pool<MemoryStore>, call: &PoolCall) -> PoolReply {
    if has_digest(call) {
        pool.call(answer.alloc(), call)
    } else {
        PoolReply::Nothing
    }
}

// Whether a call is on a digest.
fn has_digest(call: &PoolCall) -> bool
    ensures { IsTrue result → IsSome (digest_in call.now) }
{
    match call {
        PoolCall::Holdings => false,
        PoolCall::Attach(_, _, _) => true,
        PoolCall::Mount(_, _, _) => true,
        PoolCall::Read(_, _) => true,
        PoolCall::Detach(_, _) => true,
    }
}

// The answer of the call of its own.
fn made(alloc: Global, pool: &mut Pool<MemoryStore>, call: &PoolCall) -> PoolReply {
    match call {
        PoolCall::Attach(name, digest, bytes) => {
            match pool.attach(alloc, name, digest, bytes.as_slice()) {
                Ok(()) => PoolReply::Done,
                Err(error) => refused(error),
            }
        }
        PoolCall::Mount(name, from, digest) => match pool.mount(alloc, name, from, digest) {
            Ok(Some(size)) => PoolReply::Size(size),
            Ok(None) => PoolReply::Nothing,
            Err(error) => refused(error),
        },
        PoolCall::Read(name, digest) => match pool.read(alloc, name, digest) {
            Ok(Some(bytes)) => PoolReply::Content(Bytes::new(bytes)),
            Ok(None) => PoolReply::Nothing,
            Err(error) => refused(error),
        },
        PoolCall::Detach(name, digest) => match pool.detach(alloc, name, digest) {
            Ok(was) => PoolReply::Removed(was),
            Err(error) => refused(error),
        },
        PoolCall::Holdings => PoolReply::Nothing,
    }
}

// What a shard holds.
fn listed(answer: &mut Answer, pool: &mut Pool<MemoryStore>, place: u64) -> PoolReply {
    if place >= SHARDS as u64 {
        return PoolReply::Nothing;
    }
    match pool.holdings(answer.alloc(), place as u32) {
        Ok(list) => PoolReply::Held(HoldingList::new(list)),
        Err(error) => refused(error),
    }
}

// The answer for an error.
fn refused(error: PoolError) -> PoolReply {
    match error {
        PoolError::Failed => PoolReply::Failed,
        PoolError::NoMemory => PoolReply::NoMemory,
    }
}

// Adds the objects of each part that has some, behind its number.
fn say_parts(answer: &mut Answer, parts: &[MemoryStore]) {
    for (n, part) in parts.iter().enumerate() {
        let alloc = answer.alloc();
        if !answer.keep(part.list(alloc), Vec::new(alloc)).is_empty() {
            answer.begin();
            answer.tell(&n);
            say_objects(answer, part);
        }
    }
}

// Adds why a pool wasn't opened.
fn say_unopened(answer: &mut Answer, unopened: &UnopenedPool<MemoryStore>) {
    answer.tell(&unopened.error);
    match &unopened.error {
        PoolOpenError::BadMeta { path, text } => {
            answer.say(": ");
            say_path(answer, path.as_str());
            answer.say("=");
            answer.write(text.as_slice());
        }
        PoolOpenError::Failed(n) => {
            answer.say(": ");
            answer.tell(n);
        }
        PoolOpenError::NoMemory => {}
    }
    say_parts(answer, unopened.parts.as_slice());
}
