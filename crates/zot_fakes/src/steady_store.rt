//! A store in memory that never fails.
ghost use Rattle.std.specs.Prelude.{◌≡◌, ◌<◌, ◌^◌, ◌≤◌, IfOk, OnErr, OnOk, length, drop, map as each, min, option_copied, string_bytes, take, Some};
ghost use Rattle.std.specs.FinMap as map;
ghost use Rattle.zot_fakes.specs.Given.{objects_of};

use crate::object_map::ObjectMap;
use std::alloc::{AllocError, Global};
use zot_digest::Bytes;
use zot_outside::{Failed, Store, StoreError, StoreResult};

/// A store in memory that never fails: its count of faults stays 0. It tells its objects.
#[derive(Drop)]
pub struct SteadyStore {
    objects: ObjectMap,
    ghost limited: { map.len objects < 2 ^ 63 },
}

impl SteadyStore {
    ghost use Rattle.std.specs.FinMap as map;
    ghost use Rattle.zot_fakes.specs.Fakes.{steady_objects};

    /// A store without objects. Takes no memory.
    pub fn new(alloc: Global) -> Self
        ensures { steady_objects result ≡ map.empty }
    {
        let objects = ObjectMap::new(alloc);
        prove!(objects.len() <= isize::MAX as usize);
        SteadyStore { objects }
    }

    /// A store of these objects; of those with one path the last counts.
    pub(crate) fn of(
        alloc: Global,
        objects: Vec<(String, Vec<u8>)>,
    ) -> Result<SteadyStore, AllocError>
        ensures { IfOk result (λ store. steady_objects store ≡ objects_of (each (λ o. (string_bytes o.0, o.1.items)) objects.items)) }
    {
        let objects = ObjectMap::of(alloc, objects)?;
        prove!(objects.len() <= isize::MAX as usize);
        Ok(SteadyStore { objects })
    }

    /// A look at the object of a path, which is no call of the store. It fails only where memory runs out.
    pub fn object(&self, alloc: Global, path: &str) -> Result<Option<&Bytes>, AllocError>
        ensures { IfOk result (λ found. option_copied found ≡ map.get (steady_objects self.now) path.now) }
    {
        self.objects.get(alloc, path)
    }

    /// A copy of all objects, with their paths, in the order of the paths, which is no call of the store. It fails only where memory runs out.
    pub fn list(&self, alloc: Global) -> Result<Vec<(String, Vec<u8>)>, AllocError>
        ensures { IfOk result (λ list. each (λ o. (string_bytes o.0, o.1.items)) list.items ≡ map.entries (steady_objects self.now)) }
    {
        self.objects.list(alloc)
    }
}

impl Store for SteadyStore {
    ghost use Rattle.std.specs.Prelude.{Some, ◌≡◌};
    ghost use Rattle.zot_fakes.specs.Fakes.{steady_objects};

    ghost objects = { λ s. Some (steady_objects s) };

    ghost faults = { λ _. 0 };

    ghost limited = { λ s. s.limited };

    fn size(&mut self, alloc: Global, path: &str) -> StoreResult<u64> {
        match self.objects.get(alloc, path)? {
            Some(bytes) => Ok(bytes.as_slice().len() as u64),
            None => Err(StoreError::Missing),
        }
    }

    fn read(&mut self, alloc: Global, path: &str, at: u64, buf: &mut [u8]) -> StoreResult<usize> {
        match self.objects.get(alloc, path)? {
            Some(bytes) => Ok(copy_from(bytes.as_slice(), at, buf)),
            None => Err(StoreError::Missing),
        }
    }

    fn put(&mut self, alloc: Global, path: &str, bytes: &[u8]) -> StoreResult<()> {
        let bytes = Bytes::new(Vec::from_slice(alloc, bytes)?);
        self.objects.put(alloc, path, bytes)?;
        prove!(self.objects.len() <= isize::MAX as usize);
        Ok(())
    }

    fn append(&mut self, alloc: Global, path: &str, bytes: &[u8]) -> StoreResult<()> {
        self.objects.append(alloc, path, bytes)?;
        prove!(self.objects.len() <= isize::MAX as usize);
        Ok(())
    }

    fn copy(&mut self, alloc: Global, from: &str, to: &str) -> StoreResult<()> {
        let Some(bytes) = self.objects.copy_of(alloc, from)? else {
            return Err(StoreError::Missing);
        };
        self.objects.put(alloc, to, bytes)?;
        prove!(self.objects.len() <= isize::MAX as usize);
        Ok(())
    }

    fn delete(&mut self, alloc: Global, path: &str) -> StoreResult<()> {
        let was = self.objects.remove(alloc, path)?;
        prove!(self.objects.len() <= isize::MAX as usize);
        if was {
            Ok(())
        } else {
            Err(StoreError::Missing)
        }
    }

    fn next(&mut self, alloc: Global, after: &str) -> StoreResult<Option<String>> {
        match self.objects.next(alloc, after)? {
            Some(path) => Ok(Some(path.copy(alloc)?.into_string())),
            None => Ok(None),
        }
    }

    // A store that tells its objects is never asked for this through the trait.
    fn lost(&mut self) -> Failed
        ensures { self.new ≡ self.old }
    {
        Failed
    }
}

// Fills a buffer with these bytes from a place on, as far as they reach, and answers how many there are.
fn copy_from(bytes: &[u8], at: u64, buf: &mut [u8]) -> usize
    ensures within { result ≤ length buf.new }
    ensures piece { take result buf.new ≡ take (length buf.new) (drop at bytes.now) }
{
    let start = bytes.len().min(usize::try_from(at).unwrap_or(usize::MAX));
    let n = buf.len().min(bytes.len() - start);
    buf[..n].copy_from_slice(&bytes[start..start + n]);
    n
}
