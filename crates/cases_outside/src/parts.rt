//! Objects given to the parts of a cluster's storage.
use zot_cases::{Answer, cut, number};
use zot_fakes::{MemoryStore, split_parts};

/// The key of the hash that gives a repository its row.
const KEY: [u8; 16] = [0, 1, 2, 3, 4, 5, 6, 7, 8, 9, 10, 11, 12, 13, 14, 15];

/// `MEMBERS PATH=BYTES,..`: the objects of each part of the storage of so many members, by their paths.
pub fn split(answer: &mut Answer, given: &str) {
    let (members, listed) = cut(given, " ");
    let members = number(members).max(1).min(8) as u32;
    let mut objects = Vec::new(answer.alloc());
    for object in listed.split(',') {
        let (path, bytes) = cut(object, "=");
        let object = (answer.text_of(path), answer.read(bytes));
        answer.keep(objects.push(object), ());
    }
    match split_parts(answer.alloc(), objects, &KEY, members) {
        Ok(parts) => {
            held(answer, "row", parts.rows.as_slice());
            held(answer, "shard", parts.shards.as_slice());
        }
        Err(_) => answer.fail("out of memory"),
    }
}

// Adds each object of these parts.
fn held(answer: &mut Answer, kind: &str, parts: &[MemoryStore]) {
    for (place, part) in parts.iter().enumerate() {
        look(answer, kind, place, part);
    }
}

// Adds each object of a part.
fn look(answer: &mut Answer, kind: &str, place: usize, part: &MemoryStore) {
    let alloc = answer.alloc();
    for (path, bytes) in answer.keep(part.list(alloc), Vec::new(alloc)) {
        answer.begin();
        answer.say(kind);
        answer.say(" ");
        answer.show(&place);
        answer.say(" ");
        answer.say(path.as_str());
        answer.say("=");
        answer.write(bytes.as_slice());
    }
}
