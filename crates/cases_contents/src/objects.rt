//! Objects of a digest as texts of cases: `record` for its record, and the name of a repository for its object.
use zot_cases::{Answer, cut};
use zot_digest::Digest;
use zot_fakes::MemoryStore;

/// The objects of a list such as `record=W a\n, a=abc`.
pub fn objects_of(answer: &mut Answer, digest: &Digest, list: &str) -> Vec<(String, Vec<u8>)> {
    let mut objects = Vec::new(answer.alloc());
    for object in list.split(", ") {
        if !object.is_empty() {
            let (name, bytes) = cut(object, "=");
            let object = (path_of(answer, digest, name), answer.read(bytes));
            answer.keep(objects.push(object), ());
        }
    }
    objects
}

// The path of an object.
fn path_of(answer: &mut Answer, digest: &Digest, name: &str) -> String {
    let mut path = Answer::new(answer.alloc());
    if name == "record" {
        path.say("_cache/");
    } else {
        path.say(name);
        path.say("/blobs/");
    }
    path.say("sha256/");
    path.give(hex::encode(answer.alloc(), digest.as_bytes()));
    answer.confirm(!path.is_wrong(), "out of memory");
    path.into_text()
}

/// Adds what the object of a path is called.
pub fn say_path(answer: &mut Answer, path: &str) {
    match path.strip_prefix("_cache/") {
        Some(_) => answer.say("record"),
        None => answer.say(cut(path, "/blobs/").0),
    }
}

/// Adds each object of a store.
pub fn say_objects(answer: &mut Answer, store: &MemoryStore) {
    let alloc = answer.alloc();
    for (path, bytes) in answer.keep(store.list(alloc), Vec::new(alloc)) {
        answer.begin();
        say_path(answer, path.as_str());
        answer.say("=");
        answer.write(bytes.as_slice());
    }
}
