//! A store in memory that fails by a list.
ghost use Rattle.std.specs.Prelude.{◌≡◌, ◌≤◌, IfOk, OnErr, OnOk, Some, map as each, option_copied, option_map, string_bytes};
ghost use Rattle.std.specs.FinMap as map;
ghost use Rattle.zot_fakes.specs.Calls.{ByList};
ghost use Rattle.zot_fakes.specs.Given.{objects_of};
ghost use Rattle.zot_outside.specs.Faults.{HasStoreCause, OnMissing, Rose};
ghost use Rattle.zot_outside.specs.Objects.{Copies, Deletes, Extends, Follows, HasSize, IsMissing, Keeps, Puts, ReadsAt};

use crate::calls::Calls;
use crate::steady_store::SteadyStore;
use std::alloc::{AllocError, Global};
use zot_digest::Bytes;
use zot_outside::{Failed, Store, StoreError, StoreResult};

/// A store in memory that tells its objects, and fails exactly the calls of a list.
#[derive(Drop)]
pub struct MemoryStore {
    store: SteadyStore,
    calls: Calls,
}

impl MemoryStore {
    ghost use Rattle.zot_fakes.specs.Fakes.{memory_calls, memory_objects};

    /// A store of these objects; of those with one path the last counts. The calls whose numbers, from 1, are listed fail.
    pub fn new(
        alloc: Global,
        objects: Vec<(String, Vec<u8>)>,
        failing: Vec<u64>,
    ) -> Result<MemoryStore, AllocError>
        ensures objects { IfOk result (λ store. memory_objects store ≡ objects_of (each (λ o. (string_bytes o.0, o.1.items)) objects.items)) }
        ensures calls { IfOk result (λ store. memory_calls store ≡ record { failing = failing.items; made = 0; faults = 0 }) }
    {
        Ok(MemoryStore {
            store: SteadyStore::of(alloc, objects)?,
            calls: Calls::new(failing),
        })
    }

    /// How many calls were made of the store. The count stops at 2^64 - 1.
    pub fn calls(&self) -> u64
        ensures { result ≡ (memory_calls self.now).made }
    {
        self.calls.made()
    }

    /// A look at the object of a path, which is no call of the store. It fails only where memory runs out.
    pub fn object(&self, alloc: Global, path: &str) -> Result<Option<&Bytes>, AllocError>
        ensures { IfOk result (λ found. option_copied found ≡ map.get (memory_objects self.now) path.now) }
    {
        self.store.object(alloc, path)
    }

    /// A copy of all objects, with their paths, in the order of the paths, which is no call of the store. It fails only where memory runs out.
    pub fn list(&self, alloc: Global) -> Result<Vec<(String, Vec<u8>)>, AllocError>
        ensures { IfOk result (λ list. each (λ o. (string_bytes o.0, o.1.items)) list.items ≡ map.entries (memory_objects self.now)) }
    {
        self.store.list(alloc)
    }
}

impl Store for MemoryStore {
    ghost use Rattle.std.specs.Prelude.{Some};
    ghost use Rattle.zot_fakes.specs.Fakes.{memory_calls, memory_objects};

    ghost objects = { λ s. Some (memory_objects s) };

    ghost faults = { λ s. (memory_calls s).faults };

    ghost limited = { λ s. s.store.limited };

    fn size(&mut self, alloc: Global, path: &str) -> StoreResult<u64>
        ensures cause { HasStoreCause (memory_calls self.old).faults (memory_calls self.new).faults result }
        ensures kept { Keeps (Some (memory_objects self.old)) (Some (memory_objects self.new)) }
        ensures ok { IfOk result (λ n. HasSize (Some (memory_objects self.old)) path.now n) }
        ensures missing { OnMissing result (IsMissing (Some (memory_objects self.old)) path.now) }
        ensures listed { ByList (memory_calls self.old) result (memory_calls self.new) }
    {
        if self.calls.next_fails() {
            return Err(StoreError::Failed);
        }
        self.store.size(alloc, path)
    }

    fn read(&mut self, alloc: Global, path: &str, at: u64, buf: &mut [u8]) -> StoreResult<usize>
        ensures cause { HasStoreCause (memory_calls self.old).faults (memory_calls self.new).faults result }
        ensures kept { Keeps (Some (memory_objects self.old)) (Some (memory_objects self.new)) }
        ensures ok { IfOk result (λ n. ReadsAt (Some (memory_objects self.old)) path.now at buf.new n) }
        ensures missing { OnMissing result (IsMissing (Some (memory_objects self.old)) path.now) }
        ensures listed { ByList (memory_calls self.old) result (memory_calls self.new) }
    {
        if self.calls.next_fails() {
            return Err(StoreError::Failed);
        }
        self.store.read(alloc, path, at, buf)
    }

    fn put(&mut self, alloc: Global, path: &str, bytes: &[u8]) -> StoreResult<()>
        ensures cause { HasStoreCause (memory_calls self.old).faults (memory_calls self.new).faults result }
        ensures ok { OnOk result (Puts (Some (memory_objects self.old)) path.now bytes.now (Some (memory_objects self.new))) }
        ensures err { OnErr result (Keeps (Some (memory_objects self.old)) (Some (memory_objects self.new))) }
        ensures missing { OnMissing result ⊥ }
        ensures listed { ByList (memory_calls self.old) result (memory_calls self.new) }
    {
        if self.calls.next_fails() {
            return Err(StoreError::Failed);
        }
        self.store.put(alloc, path, bytes)
    }

    fn append(&mut self, alloc: Global, path: &str, bytes: &[u8]) -> StoreResult<()>
        ensures cause { HasStoreCause (memory_calls self.old).faults (memory_calls self.new).faults result }
        ensures ok { OnOk result (Extends (Some (memory_objects self.old)) path.now bytes.now (Some (memory_objects self.new))) }
        ensures err { OnErr result (Keeps (Some (memory_objects self.old)) (Some (memory_objects self.new))) }
        ensures missing { OnMissing result ⊥ }
        ensures listed { ByList (memory_calls self.old) result (memory_calls self.new) }
    {
        if self.calls.next_fails() {
            return Err(StoreError::Failed);
        }
        self.store.append(alloc, path, bytes)
    }

    fn copy(&mut self, alloc: Global, from: &str, to: &str) -> StoreResult<()>
        ensures cause { HasStoreCause (memory_calls self.old).faults (memory_calls self.new).faults result }
        ensures ok { OnOk result (Copies (Some (memory_objects self.old)) from.now to.now (Some (memory_objects self.new))) }
        ensures err { OnErr result (Keeps (Some (memory_objects self.old)) (Some (memory_objects self.new))) }
        ensures missing { OnMissing result (IsMissing (Some (memory_objects self.old)) from.now) }
        ensures listed { ByList (memory_calls self.old) result (memory_calls self.new) }
    {
        if self.calls.next_fails() {
            return Err(StoreError::Failed);
        }
        self.store.copy(alloc, from, to)
    }

    fn delete(&mut self, alloc: Global, path: &str) -> StoreResult<()>
        ensures cause { HasStoreCause (memory_calls self.old).faults (memory_calls self.new).faults result }
        ensures ok { OnOk result (Deletes (Some (memory_objects self.old)) path.now (Some (memory_objects self.new))) }
        ensures err { OnErr result (Keeps (Some (memory_objects self.old)) (Some (memory_objects self.new))) }
        ensures missing { OnMissing result (IsMissing (Some (memory_objects self.old)) path.now) }
        ensures listed { ByList (memory_calls self.old) result (memory_calls self.new) }
    {
        if self.calls.next_fails() {
            return Err(StoreError::Failed);
        }
        self.store.delete(alloc, path)
    }

    fn next(&mut self, alloc: Global, after: &str) -> StoreResult<Option<String>>
        ensures cause { HasStoreCause (memory_calls self.old).faults (memory_calls self.new).faults result }
        ensures kept { Keeps (Some (memory_objects self.old)) (Some (memory_objects self.new)) }
        ensures ok { IfOk result (λ found. Follows (Some (memory_objects self.old)) after.now (option_map string_bytes found)) }
        ensures missing { OnMissing result ⊥ }
        ensures listed { ByList (memory_calls self.old) result (memory_calls self.new) }
    {
        if self.calls.next_fails() {
            return Err(StoreError::Failed);
        }
        self.store.next(alloc, after)
    }

    // A store that tells its objects is never asked for this through the trait.
    fn lost(&mut self) -> Failed
        ensures later { (memory_calls self.old).faults ≤ (memory_calls self.new).faults }
        ensures rose { Rose (memory_calls self.old).faults (memory_calls self.new).faults }
        ensures kept { memory_objects self.new ≡ memory_objects self.old }
    {
        self.calls.fault();
        Failed
    }
}
