//! Objects as texts of cases: `PATH=BYTES`, where a path has a digest in the place of its folder and its digits.
use std::collections::BTreeMap;
use zot_cases::{Answer, cut};
use zot_digest::{Bytes, Words};
use zot_fakes::MemoryStore;
use zot_noting::NotingStore;
use zot_outside::Parts;

/// The objects of a list such as `a/index.json={, a/blobs/$=abc`.
pub fn objects_of(answer: &mut Answer, list: &str) -> Vec<(String, Vec<u8>)> {
    let mut objects = Vec::new(answer.alloc());
    for object in list.split(", ") {
        if !object.is_empty() {
            let (path, bytes) = cut(object, "=");
            let object = (path_of(answer, path), answer.read(bytes));
            answer.keep(objects.push(object), ());
        }
    }
    objects
}

// The path of a text.
fn path_of(answer: &mut Answer, text: &str) -> String {
    let alloc = answer.alloc();
    let bytes = answer.read(text);
    let mut path = Answer::new(alloc);
    path.write(bytes.as_slice());
    answer.confirm(!path.is_wrong(), "out of memory");
    let path = path.as_str().replace(alloc, "sha256:", "sha256/");
    answer.keep(path, String::new(alloc))
}

/// Adds what stands for a path.
pub fn say_path(answer: &mut Answer, path: &str) {
    let alloc = answer.alloc();
    answer.give(path.replace(alloc, "sha256/", "sha256:"));
}

/// Adds all objects of the parts, in the order of their paths.
pub fn say_objects(answer: &mut Answer, parts: &Parts<NotingStore>) {
    let mut all = BTreeMap::new(answer.alloc());
    for part in &parts.rows {
        add_objects(answer, &mut all, part.store());
    }
    for part in &parts.shards {
        add_objects(answer, &mut all, part.store());
    }
    for (path, bytes) in all.iter() {
        answer.begin();
        say_path(answer, path.as_str());
        answer.say("=");
        answer.write(bytes.as_slice());
    }
}

// Adds the objects of a store to others.
fn add_objects(answer: &mut Answer, all: &mut BTreeMap<Words, Bytes>, store: &MemoryStore) {
    for (path, bytes) in listed(answer, store) {
        match all.insert(Words::new(path), Bytes::new(bytes)) {
            Ok(None) => {}
            Ok(Some(_)) => answer.fail("an object in two parts; "),
            Err(_) => answer.fail("out of memory; "),
        }
    }
}

/// The objects of a store.
pub fn listed(answer: &mut Answer, store: &MemoryStore) -> Vec<(String, Vec<u8>)> {
    let alloc = answer.alloc();
    let list = store.list(alloc);
    answer.keep(list, Vec::new(alloc))
}
