//! The parts of a cluster's storage, with their objects.
use crate::objects::{listed, objects_of};
use crate::place::{KEY, MEMBERS, Place};
use zot_cases::Answer;
use zot_fakes::{MemoryStore, split_parts};
use zot_noting::NotingStore;
use zot_outside::Parts;

/// The parts of a cluster with the objects of a list, of which each is in the part that owns its path. The calls of one part
/// that have these numbers fail.
pub fn parts_of(
    answer: &mut Answer,
    list: &str,
    place: Place,
    failing: &[u64],
) -> Parts<NotingStore> {
    let alloc = answer.alloc();
    let objects = objects_of(answer, list);
    let mut noting = Parts {
        rows: Vec::new(alloc),
        shards: Vec::new(alloc),
    };
    if let Ok(parts) = split_parts(alloc, objects, &KEY, MEMBERS) {
        for (number, store) in parts.rows.iter().enumerate() {
            let failing = if place.is_row(number) { failing } else { &[] };
            add_part(answer, &mut noting.rows, store, failing);
        }
        for (number, store) in parts.shards.iter().enumerate() {
            let failing = if place.is_shard(number) { failing } else { &[] };
            add_part(answer, &mut noting.shards, store, failing);
        }
    }
    noting
}

// Adds a part with the objects of a store.
fn add_part(
    answer: &mut Answer,
    parts: &mut Vec<NotingStore>,
    store: &MemoryStore,
    failing: &[u64],
) {
    let alloc = answer.alloc();
    let objects = listed(answer, store);
    let numbers = answer.keep(Vec::from_slice(alloc, failing), Vec::new(alloc));
    match NotingStore::new(alloc, objects, numbers, true) {
        Ok(part) => {
            answer.keep(parts.push(part), ());
        }
        Err(_) => answer.fail("out of memory; "),
    }
}

/// How many calls were made of a part.
pub fn calls_at(parts: &Parts<NotingStore>, place: Place) -> u64 {
    let found = match place {
        Place::Row(number) => parts.rows.get(number as usize),
        Place::Shard(number) => parts.shards.get(number as usize),
        Place::Nowhere => None,
    };
    match found {
        Some(part) => part.store().calls(),
        None => 0,
    }
}
