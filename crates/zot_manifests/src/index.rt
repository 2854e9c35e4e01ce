//! Values that are listed under digests.
ghost use Rattle.std.specs.Prelude.{◌≡◌, None, cond, false, true, OnErr, OnOk, option_copied};
ghost use Rattle.std.specs.BTreeMap.{get, is_at};
ghost use Rattle.std.specs.BTreeSet.{contains};
ghost use Rattle.std.specs.Str.{bytes_eq};
ghost use Rattle.zot_digest.specs.ByteMap.{byte_cmp};
ghost use Rattle.zot_manifests.specs.Index.{Adds, Empties, KeepsJust, ListsNone, Removes, has};

use std::alloc::{AllocError, Global};
use std::collections::{BTreeMap, BTreeSet};
use zot_digest::Digest;

/// Under each digest, the values that are listed there.
#[derive(Drop)]
pub struct Index<K: Ord> {
    sets: BTreeMap<Digest, BTreeSet<K>>,
}

impl<K: Ord + Drop> Index<K> {
    /// Nothing is listed. Takes no memory.
    pub fn new(alloc: Global) -> Self
        ensures { ListsNone K.cmp result.sets }
    {
        Index {
            sets: BTreeMap::new(alloc),
        }
    }

    /// What is listed under a digest.
    pub fn get(&self, digest: &Digest) -> Option<&BTreeSet<K>>
        ensures { option_copied result ≡ get byte_cmp self.now.sets digest.now }
    {
        self.sets.get(digest)
    }

    /// Lists a value under a digest. After an `Err` the same is listed as before.
    pub fn list(&mut self, alloc: Global, digest: Digest, value: K) -> Result<(), AllocError>
        ensures ok { OnOk result (Adds K.cmp (bytes_eq digest) value self.old.sets self.new.sets) }
        ensures err { OnErr result (KeepsJust K.cmp self.old.sets self.new.sets) }
    {
        match self.sets.get_mut(&digest) {
            Some(set) => add_to(set, value),
            None => self.list_first(alloc, digest, value),
        }
    }

    // The same under a digest that nothing is listed under.
    fn list_first(&mut self, alloc: Global, digest: Digest, value: K) -> Result<(), AllocError>
        requires { get byte_cmp self.now.sets digest ≡ None }
        ensures ok { OnOk result (Adds K.cmp (bytes_eq digest) value self.old.sets self.new.sets) }
        ensures err { OnErr result (KeepsJust K.cmp self.old.sets self.new.sets) }
    {
        let mut set = BTreeSet::new(alloc);
        add_to(&mut set, value)?;
        match self.sets.insert(digest, set) {
            Ok(_) => Ok(()),
            Err(_) => Err(AllocError),
        }
    }

    /// Lists a value no more under a digest. Takes no memory.
    pub fn unlist(&mut self, digest: &Digest, value: &K)
        ensures { Removes K.cmp (bytes_eq digest.now) value.now self.old.sets self.new.sets }
    {
        if self.take_from(digest, value) {
            let _ = self.sets.remove(digest);
        }
    }

    // The same, and whether a set without a value is left there.
    fn take_from(&mut self, digest: &Digest, value: &K) -> bool
        ensures removed { Removes K.cmp (bytes_eq digest.now) value.now self.old.sets self.new.sets }
        ensures none { result ≡ true → (other : K) → has K.cmp self.new.sets digest.now other ≡ false }
    {
        match self.sets.get_mut(digest) {
            Some(set) => {
                set.remove(value);
                set.is_empty()
            }
            None => false,
        }
    }

    /// Removes what is listed under a digest, and answers it. Takes no memory.
    pub fn take(&mut self, digest: &Digest) -> Option<BTreeSet<K>>
        ensures was { result ≡ get byte_cmp self.old.sets digest.now }
        ensures taken { Empties K.cmp digest.now self.old.sets self.new.sets }
    {
        self.sets.remove(digest)
    }
}

// Adds a value to a set. After an `Err` the set is as it was.
fn add_to<K: Ord + Drop>(set: &mut BTreeSet<K>, value: K) -> Result<(), AllocError>
    ensures ok { OnOk result ((other : K) → contains K.cmp set.new other ≡ cond (is_at (K.cmp value) other) true (contains K.cmp set.old other)) }
    ensures err { OnErr result (set.new ≡ set.old) }
{
    match set.insert(value) {
        Ok(_) => Ok(()),
        Err(_) => Err(AllocError),
    }
}
