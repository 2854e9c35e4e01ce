//! Objects in memory, by their paths.
ghost use Rattle.std.specs.Prelude.{◌≡◌, ◌<◌, ◌≤◌, ◌^◌, ◌++◌, false, IfOk, OnErr, OnOk, Some, is_some, map as each, option_copied, string_bytes};
ghost use Rattle.std.specs.FinMap as map;
ghost use Rattle.zot_digest.specs.ByteMap.{map_of};
ghost use Rattle.zot_fakes.specs.Given.{objects_of};
ghost use Rattle.zot_outside.specs.Objects.{Follows, bytes_at, with_object};

use std::alloc::{AllocError, Global};
use std::collections::BTreeMap;
use std::marker::Model;
use std::mem;
use std::ops::Bound;
use zot_digest::{Bytes, Words};

/// Objects in a tree, by their paths. Contracts see the finite map from paths to bytes.
#[derive(Drop)]
pub struct ObjectMap {
    tree: BTreeMap<Words, Bytes>,
}

impl Model for ObjectMap {
    ghost use Rattle.std.specs.Coded.{coded_list, coded_ℕ};
    ghost use Rattle.std.specs.FinMap as map;
    ghost use Rattle.zot_digest.specs.ByteMap.{map_of};
    ghost use Rattle.zot_outside.specs.Objects.{Objects};

    ghost Value = { Objects };

    ghost coded = { map.code (coded_list coded_ℕ) (coded_list coded_ℕ) };

    ghost view = { λ m. map_of m.tree.entries };
}

impl ObjectMap {
    /// No objects. Takes no memory.
    pub fn new(alloc: Global) -> Self
        ensures { result ≡ map.empty }
    {
        ObjectMap {
            tree: BTreeMap::new(alloc),
        }
    }

    /// These objects; of those with one path the last counts.
    pub fn of(alloc: Global, objects: Vec<(String, Vec<u8>)>) -> Result<ObjectMap, AllocError>
        ensures { IfOk result (λ made. made ≡ objects_of (each (λ o. (string_bytes o.0, o.1.items)) objects.items)) }
    {
        let mut made = ObjectMap::new(alloc);
        for object in objects {
            made.set(Words::new(object.0), Bytes::new(object.1))?;
        }
        Ok(made)
    }

    /// At least as many as there are objects, and fewer than 2^63.
    pub fn len(&self) -> usize
        ensures at_least { map.len self.now ≤ result }
        ensures few { result < 2 ^ 63 }
    {
        self.tree.len()
    }

    // Sets the object of a path. After an `Err` the objects are as they were.
    fn set(&mut self, path: Words, bytes: Bytes) -> Result<(), AllocError>
        ensures ok { OnOk result (self.new ≡ with_object self.old path bytes) }
        ensures err { OnErr result (self.new ≡ self.old) }
    {
        self.tree.insert(path, bytes)?;
        Ok(())
    }

    /// Sets the object of a path. After an `Err` the objects are as they were.
    pub fn put(&mut self, alloc: Global, path: &str, bytes: Bytes) -> Result<(), AllocError>
        ensures ok { OnOk result (self.new ≡ with_object self.old path.now bytes) }
        ensures err { OnErr result (self.new ≡ self.old) }
    {
        self.set(words(alloc, path)?, bytes)
    }

    /// A copy of the object of a path. It fails only where memory runs out.
    pub fn copy_of(&self, alloc: Global, path: &str) -> Result<Option<Bytes>, AllocError>
        ensures { IfOk result (λ found. found ≡ map.get self.now path.now) }
    {
        match self.get(alloc, path)? {
            Some(bytes) => Ok(Some(bytes.copy(alloc)?)),
            None => Ok(None),
        }
    }

    /// The object of a path. It fails only where memory runs out.
    pub fn get(&self, alloc: Global, path: &str) -> Result<Option<&Bytes>, AllocError>
        ensures { IfOk result (λ found. option_copied found ≡ map.get self.now path.now) }
    {
        let key = words(alloc, path)?;
        Ok(self.tree.get(&key))
    }

    /// Adds bytes at the end of the object of a path, or makes an object of them if there is none. After an `Err` the objects are as they were.
    pub fn append(&mut self, alloc: Global, path: &str, bytes: &[u8]) -> Result<(), AllocError>
        ensures ok { OnOk result (self.new ≡ with_object self.old path.now (bytes_at self.old path.now ++ bytes.now)) }
        ensures err { OnErr result (self.new ≡ self.old) }
    {
        let key = words(alloc, path)?;
        match self.tree.get_mut(&key) {
            Some(object) => extend(alloc, object, bytes),
            None => self.set(key, Bytes::new(Vec::from_slice(alloc, bytes)?)),
        }
    }

    /// Removes the object of a path, and answers whether there was one. After an `Err` the objects are as they were.
    pub fn remove(&mut self, alloc: Global, path: &str) -> Result<bool, AllocError>
        ensures was { IfOk result (λ was. was ≡ is_some (map.get self.old path.now)) }
        ensures ok { OnOk result (self.new ≡ map.remove self.old path.now) }
        ensures same { IfOk result (λ was. was ≡ false → self.new ≡ self.old) }
        ensures err { OnErr result (self.new ≡ self.old) }
    {
        let key = words(alloc, path)?;
        Ok(self.tree.remove(&key).is_some())
    }

    /// A copy of all objects, with their paths, in the order of the paths. It fails only where memory runs out.
    pub fn list(&self, alloc: Global) -> Result<Vec<(String, Vec<u8>)>, AllocError>
        ensures { IfOk result (λ list. each (λ o. (string_bytes o.0, o.1.items)) list.items ≡ map.entries self.now) }
    {
        list(alloc, &self.tree)
    }

    /// The least path of an object that is greater than a path. It fails only where memory runs out.
    pub fn next(&self, alloc: Global, after: &str) -> Result<Option<&Words>, AllocError>
        ensures { IfOk result (λ found. Follows (Some self.now) after.now (option_copied found)) }
    {
        let after = Bound::Excluded(words(alloc, after)?);
        match self.tree.range((after, Bound::Unbounded)).next() {
            Some(entry) => Ok(Some(entry.0)),
            None => Ok(None),
        }
    }
}

// A copy of the objects of a tree, in its order.
fn list(alloc: Global, tree: &BTreeMap<Words, Bytes>) -> Result<Vec<(String, Vec<u8>)>, AllocError>
    ensures { IfOk result (λ list. each (λ o. (string_bytes o.0, o.1.items)) list.items ≡ map.entries (map_of tree.now.entries)) }
{
    let mut list = Vec::new(alloc);
    for (path, bytes) in tree.iter() {
        let object = (
            path.copy(alloc)?.into_string(),
            bytes.copy(alloc)?.into_vec(),
        );
        list.push(object)?;
    }
    Ok(list)
}

// Adds bytes after others. After an `Err` these are as they were.
fn extend(alloc: Global, bytes: &mut Bytes, more: &[u8]) -> Result<(), AllocError>
    ensures ok { OnOk result (bytes.new ≡ bytes.old ++ more.now) }
    ensures err { OnErr result (bytes.new ≡ bytes.old) }
{
    let mut items = mem::replace(bytes, Bytes::new(Vec::new(alloc))).into_vec();
    let extended = items.extend_from_slice(more);
    *bytes = Bytes::new(items);
    extended
}

// A copy of a text.
fn words(alloc: Global, text: &str) -> Result<Words, AllocError>
    ensures { IfOk result (λ words. words ≡ text.now) }
{
    Ok(Words::new(String::from_str(alloc, text)?))
}
