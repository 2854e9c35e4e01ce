//! Calls on a shard of digests, and their answers, as texts of cases.
use zot_cases::{Answer, word};
use zot_contents::{Holding, PoolCall, PoolReply};
use zot_digest::{Bytes, Digest};
use zot_names::RepoName;

/// The call of a step under a digest, as `attach NAME BYTES`, `mount NAME FROM`, `read NAME`, `detach NAME` or `holdings`.
pub fn call_of(answer: &mut Answer, digest: &Digest, step: &str) -> PoolCall {
    match word(step, 0) {
        "attach" => {
            let bytes = Bytes::new(answer.read(word(step, 2)));
            match name_of(answer, word(step, 1)) {
                Some(name) => PoolCall::Attach(name, *digest, bytes),
                None => PoolCall::Holdings,
            }
        }
        "mount" => mount_of(answer, digest, word(step, 1), word(step, 2)),
        "read" => match name_of(answer, word(step, 1)) {
            Some(name) => PoolCall::Read(name, *digest),
            None => PoolCall::Holdings,
        },
        "detach" => match name_of(answer, word(step, 1)) {
            Some(name) => PoolCall::Detach(name, *digest),
            None => PoolCall::Holdings,
        },
        "holdings" => PoolCall::Holdings,
        _ => {
            answer.fail("no such step");
            PoolCall::Holdings
        }
    }
}

// The call that mounts.
fn mount_of(answer: &mut Answer, digest: &Digest, name: &str, from: &str) -> PoolCall {
    let Some(name) = name_of(answer, name) else {
        return PoolCall::Holdings;
    };
    match name_of(answer, from) {
        Some(from) => PoolCall::Mount(name, from, *digest),
        None => PoolCall::Holdings,
    }
}

/// The repository of a name.
pub fn name_of(answer: &mut Answer, text: &str) -> Option<RepoName> {
    match RepoName::read(answer.alloc(), text) {
        Ok(name) => Some(name),
        Err(_) => {
            answer.fail("no name");
            None
        }
    }
}

/// Adds an answer. A list has each repository with the number of its bytes.
pub fn say_reply(answer: &mut Answer, reply: &PoolReply) {
    match reply {
        PoolReply::Done => answer.say("done"),
        PoolReply::Held(list) => {
            answer.say("held");
            for holding in list.as_slice() {
                say_holding(answer, holding);
            }
        }
        PoolReply::Size(size) => {
            answer.say("size ");
            answer.tell(size);
        }
        PoolReply::Content(bytes) => {
            answer.say("content ");
            answer.write(bytes.as_slice());
        }
        PoolReply::Nothing => answer.say("nothing"),
        PoolReply::Removed(was) => {
            answer.say("removed ");
            answer.tell(was);
        }
        PoolReply::Failed => answer.say("failed"),
        PoolReply::NoMemory => answer.say("no memory"),
    }
}

// Adds a holding.
fn say_holding(answer: &mut Answer, holding: &Holding) {
    answer.say(" ");
    answer.say(holding.name.as_str());
    answer.say(":");
    answer.tell(&holding.size);
}
