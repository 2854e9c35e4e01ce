//! A store that notes the calls that are made of it.
ghost use Rattle.std.specs.Prelude.{◌≡◌, ◌≤◌};
ghost use Rattle.zot_outside.specs.Faults.{Rose};

use std::alloc::{AllocError, Global};
use zot_fakes::MemoryStore;
use zot_outside::{Failed, Store, StoreResult};

/// A store in memory that notes the calls that are made of it, if it is to. A note for which there is no memory is left out.
#[derive(Drop)]
pub struct NotingStore {
    store: MemoryStore,
    notes: Vec<String>,
    is_noting: bool,
}

impl NotingStore {
    /// A store of these objects whose calls of these numbers fail.
    pub fn new(
        alloc: Global,
        objects: Vec<(String, Vec<u8>)>,
        failing: Vec<u64>,
        is_noting: bool,
    ) -> Result<NotingStore, AllocError> {
        Ok(NotingStore {
            store: MemoryStore::new(alloc, objects, failing)?,
            notes: Vec::new(alloc),
            is_noting,
        })
    }

    /// The store.
    pub fn store(&self) -> &MemoryStore {
        &self.store
    }

    /// The notes: a call's name and its path, and of a copy the path to which.
    pub fn notes(&self) -> &[String] {
        self.notes.as_slice()
    }
}

// Adds a note.
fn note(notes: &mut Vec<String>, alloc: Global, is_noting: bool, words: &[&str]) {
    if !is_noting {
        return;
    }
    if let Ok(text) = words.join(alloc, " ") {
        let _ = notes.push(text);
    }
}

impl Store for NotingStore {
    ghost use Rattle.std.specs.Prelude.{Some};
    ghost use Rattle.zot_fakes.specs.Fakes.{memory_calls, memory_objects};

    ghost objects = { λ s. Some (memory_objects s.store) };

    ghost faults = { λ s. (memory_calls s.store).faults };

    ghost limited = { λ s. s.store.store.limited };

    fn size(&mut self, alloc: Global, path: &str) -> StoreResult<u64> {
        note(&mut self.notes, alloc, self.is_noting, &["size", path]);
        self.store.size(alloc, path)
    }

    fn read(&mut self, alloc: Global, path: &str, at: u64, buf: &mut [u8]) -> StoreResult<usize> {
        note(&mut self.notes, alloc, self.is_noting, &["read", path]);
        self.store.read(alloc, path, at, buf)
    }

    fn put(&mut self, alloc: Global, path: &str, bytes: &[u8]) -> StoreResult<()> {
        note(&mut self.notes, alloc, self.is_noting, &["put", path]);
        self.store.put(alloc, path, bytes)
    }

    fn append(&mut self, alloc: Global, path: &str, bytes: &[u8]) -> StoreResult<()> {
        note(&mut self.notes, alloc, self.is_noting, &["append", path]);
        self.store.append(alloc, path, bytes)
    }

    fn copy(&mut self, alloc: Global, from: &str, to: &str) -> StoreResult<()> {
        note(&mut self.notes, alloc, self.is_noting, &["copy", from, to]);
        self.store.copy(alloc, from, to)
    }

    fn delete(&mut self, alloc: Global, path: &str) -> StoreResult<()> {
        note(&mut self.notes, alloc, self.is_noting, &["delete", path]);
        self.store.delete(alloc, path)
    }

    fn next(&mut self, alloc: Global, after: &str) -> StoreResult<Option<String>> {
        note(&mut self.notes, alloc, self.is_noting, &["next", after]);
        self.store.next(alloc, after)
    }

    // A store that tells its objects is never asked for this through the trait.
    fn lost(&mut self) -> Failed
        ensures later { (memory_calls self.old.store).faults ≤ (memory_calls self.new.store).faults }
        ensures rose { Rose (memory_calls self.old.store).faults (memory_calls self.new.store).faults }
        ensures kept { memory_objects self.new.store ≡ memory_objects self.old.store }
    {
        self.store.lost()
    }
}
