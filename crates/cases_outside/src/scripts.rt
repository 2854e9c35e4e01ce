//! Scripts: calls on a store, each `CALL PATH MORE`, with `; ` between two.
use zot_cases::{Answer, word};
use zot_outside::{PathWalk, Store, has_bytes, read_whole};

/// What a store answers to each call of a script. It reads from the third byte on.
pub fn answers<S: Store>(answer: &mut Answer, store: &mut S, script: &str) {
    for step in script.split("; ") {
        answer.begin();
        make(answer, store, step, 2);
    }
}

/// What a store answers to a call. It reads from a place on.
pub fn make<S: Store>(answer: &mut Answer, store: &mut S, step: &str, at: u64) {
    let alloc = answer.alloc();
    let path = answer.text_of(word(step, 1));
    let path = path.as_str();
    let more = answer.text_of(word(step, 2));
    let more = more.as_str();
    match word(step, 0) {
        "put" => answer.show(&store.put(alloc, path, more.as_bytes())),
        "append" => answer.show(&store.append(alloc, path, more.as_bytes())),
        "copy" => answer.show(&store.copy(alloc, path, more)),
        "delete" => answer.show(&store.delete(alloc, path)),
        "size" => answer.show(&store.size(alloc, path)),
        "next" => answer.show(&store.next(alloc, path)),
        "read" => {
            let mut buf = [0; 4];
            let read = store.read(alloc, path, at, &mut buf);
            answer.show(&read);
            answer.write(buf.get(..read.unwrap_or(0)).unwrap_or(b""));
        }
        "whole" => match read_whole(store, alloc, path) {
            Ok(bytes) => answer.write(bytes.as_slice()),
            Err(error) => answer.show(&error),
        },
        "walk" => walk(answer, store, path),
        "has" => answer.show(&has_bytes(store, alloc, path, more.as_bytes())),
        _ => answer.fail("no such call"),
    }
}

// Adds the paths of a store that a walk finds which passes over those up to one, and that it came to the end.
fn walk<S: Store>(answer: &mut Answer, store: &mut S, after: &str) {
    let alloc = answer.alloc();
    let mut walk = PathWalk::over(store, alloc);
    let skipped = walk.skip_to(alloc, after);
    answer.keep(skipped, ());
    for _ in 0..u64::MAX {
        match walk.next(store, alloc) {
            Ok(Some(path)) => answer.say(path.as_str()),
            Ok(None) => return answer.say("end"),
            Err(error) => return answer.show(&error),
        }
        answer.say(",");
    }
}
