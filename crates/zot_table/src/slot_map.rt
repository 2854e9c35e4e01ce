//! What is kept of a repository's blobs.
ghost use Rattle.std.specs.Prelude.{◌≡◌, ◌↔◌, IsSome, IsTrue, OnErr, OnOk, Some, option_copied};
ghost use Rattle.std.specs.FinMap as map;
ghost use Rattle.zot_table.specs.Changes.{reserved_by, settled_by};
ghost use Rattle.zot_table.specs.Putting.{marked_by};
ghost use Rattle.zot_table.specs.Tables.{entry_at, is_unread, size_at};

use crate::blob_entry::BlobEntry;
use std::alloc::{AllocError, Global};
use std::collections::BTreeMap;
use std::marker::Model;
use zot_digest::Digest;
use zot_manifests::Held;

/// What is kept of a repository's blobs, in a tree by their digests. Under a digest there may be room for a blob that hasn't arrived. Contracts see the finite map.
#[derive(Drop)]
pub struct SlotMap {
    tree: BTreeMap<Digest, Option<BlobEntry>>,
}

impl Model for SlotMap {
    ghost use Rattle.zot_digest.specs.ByteMap.{map_of};
    ghost use Rattle.zot_table.specs.Tables.{Slots, slots_code};

    ghost Value = { Slots };

    ghost coded = { slots_code };

    ghost view = { λ m. map_of m.tree.entries };
}

impl SlotMap {
    /// No blobs, and no room for one. Takes no memory.
    pub fn new(alloc: Global) -> Self
        ensures { result ≡ map.empty }
    {
        SlotMap {
            tree: BTreeMap::new(alloc),
        }
    }

    /// Whether there is neither a blob nor room for one.
    pub fn is_empty(&self) -> bool
        ensures { IsTrue result ↔ (self.now ≡ map.empty) }
    {
        self.tree.is_empty()
    }

    // What is under a digest.
    fn get(&self, digest: &Digest) -> Option<&Option<BlobEntry>>
        ensures { option_copied result ≡ map.get self.now digest.now }
    {
        self.tree.get(digest)
    }

    /// What is kept of the blob of a digest, where there is one.
    pub fn entry(&self, digest: &Digest) -> Option<BlobEntry>
        ensures { result ≡ entry_at self.now digest.now }
    {
        match self.get(digest) {
            Some(slot) => *slot,
            None => None,
        }
    }

    /// Whether the bytes of the blob of a digest may say something else than what is kept of the manifest under it.
    pub fn is_unread(&self, digest: &Digest) -> bool
        ensures { result ≡ is_unread (entry_at self.now digest.now) }
    {
        match self.entry(digest) {
            Some(entry) => entry.unread,
            None => false,
        }
    }

    /// Whether there is a blob of a digest, or room for it.
    pub fn has_room(&self, digest: &Digest) -> bool
        ensures { result ≡ map.contains_key self.now digest.now }
    {
        self.get(digest).is_some()
    }

    /// Makes room for the blob of a digest; what stands there stays. After an `Err` all is as it was.
    pub fn reserve(&mut self, digest: &Digest) -> Result<(), AllocError>
        ensures ok { OnOk result (self.new ≡ reserved_by self.old digest.now (map.get self.old digest.now)) }
        ensures err { OnErr result (self.new ≡ self.old) }
    {
        if self.has_room(digest) {
            return Ok(());
        }
        self.tree.insert(*digest, None)?;
        Ok(())
    }

    /// Lets room go that no blob took. Takes no memory.
    pub fn settle(&mut self, digest: &Digest)
        ensures { self.new ≡ settled_by self.old digest.now (map.get self.old digest.now) }
    {
        match self.get(digest) {
            Some(slot) if slot.is_none() => self.remove(digest),
            _ => {}
        }
    }

    /// Sets what is kept of the blob of a digest, where there is room. Takes no memory.
    pub fn fill(&mut self, digest: &Digest, entry: BlobEntry)
        requires { IsSome (map.get self.old digest.now) }
        ensures { self.new ≡ map.insert self.old digest.now (Some entry) }
    {
        match self.tree.get_mut(digest) {
            Some(slot) => *slot = Some(entry),
            None => unreachable!(),
        }
    }

    /// Says of the blob of a digest, where there is one, whether its bytes are to be read. Takes no memory.
    pub fn mark(&mut self, digest: &Digest, unread: bool)
        ensures { self.new ≡ marked_by unread self.old digest.now (map.get self.old digest.now) }
    {
        let Some(entry) = self.entry(digest) else {
            return;
        };
        self.fill(
            digest,
            BlobEntry {
                size: entry.size,
                arrived: entry.arrived,
                unread,
            },
        );
    }

    /// Removes what is under a digest. Takes no memory.
    pub fn remove(&mut self, digest: &Digest)
        ensures { self.new ≡ map.remove self.old digest.now }
    {
        let _ = self.tree.remove(digest);
    }
}

impl Held for SlotMap {
    ghost use Rattle.zot_table.specs.Tables.{size_at};

    ghost sizes = { λ slots digest. size_at slots digest };

    fn size(&self, digest: &Digest) -> Option<u64> {
        match self.entry(digest) {
            Some(entry) => Some(entry.size),
            None => None,
        }
    }
}
