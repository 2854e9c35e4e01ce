//! What becomes of blobs in a repository's table.
ghost use Rattle.std.specs.Prelude.{◌≡◌, IsSome, OnErr, OnOk};
ghost use Rattle.std.specs.FinMap as map;
ghost use Rattle.zot_table.specs.Changes.{reserved, settled, with_entry, without_entry};
ghost use Rattle.zot_table.specs.Tables.{is_needed_in, size_at};

use crate::blob_entry::BlobEntry;
use crate::repository::Repository;
use std::alloc::AllocError;
use zot_digest::Digest;
use zot_manifests::Held;

impl Repository {
    /// How many bytes the blob of a digest has, where there is one. Takes no memory.
    pub fn size(&self, digest: &Digest) -> Option<u64>
        ensures { result ≡ size_at self.now.slots digest.now }
    {
        self.blobs.size(digest)
    }

    /// Whether there is a blob of a digest, or room for it. Takes no memory.
    pub fn has_room(&self, digest: &Digest) -> bool
        ensures { result ≡ map.contains_key self.now.slots digest.now }
    {
        self.blobs.has_room(digest)
    }

    /// Makes room for the blob of a digest, so that `fill` takes no memory. What stands there stays. After an `Err`, which comes only where memory runs out, the table is as it was.
    pub fn reserve(&mut self, digest: &Digest) -> Result<(), AllocError>
        ensures ok { OnOk result (self.new ≡ reserved self.old digest.now) }
        ensures room { OnOk result (IsSome (map.get self.new.slots digest.now)) }
        ensures err { OnErr result (self.new ≡ self.old) }
    {
        self.blobs.reserve(digest)
    }

    /// Lets room go that no blob took. Takes no memory.
    pub fn settle(&mut self, digest: &Digest)
        ensures { self.new ≡ settled self.old digest.now }
    {
        self.blobs.settle(digest);
    }

    /// A blob of so many bytes arrives at the moment where there is room, which makes the repository known. Where there is a manifest under its digest, that is to be read. Takes no memory.
    pub fn fill(&mut self, digest: &Digest, size: u64, moment: u64)
        requires { IsSome (map.get self.old.slots digest.now) }
        ensures { self.new ≡ with_entry moment self.old digest.now size }
    {
        let unread = self.manifests.has(digest);
        self.blobs.fill(
            digest,
            BlobEntry {
                size,
                arrived: moment,
                unread,
            },
        );
        self.known = true;
        if unread {
            self.all_read = false;
        }
    }

    /// The same where there may be no room. After an `Err`, which comes only where memory runs out, the table is as it was.
    pub fn hold(&mut self, digest: &Digest, size: u64, moment: u64) -> Result<(), AllocError>
        ensures ok { OnOk result (self.new ≡ with_entry moment self.old digest.now size) }
        ensures err { OnErr result (self.new ≡ self.old) }
    {
        self.reserve(digest)?;
        self.fill(digest, size, moment);
        Ok(())
    }

    /// The blob of a digest goes. Takes no memory.
    pub fn clear(&mut self, digest: &Digest)
        ensures { self.new ≡ without_entry self.old digest.now }
    {
        self.blobs.remove(digest);
    }

    /// Whether a blob has to stay, by what is kept of the manifests: it is one, or some manifest refers to it. Takes no memory.
    pub fn is_needed(&self, digest: &Digest) -> bool
        ensures { result ≡ is_needed_in self.now digest.now }
    {
        self.manifests.has(digest) || self.manifests.refers(digest)
    }
}
