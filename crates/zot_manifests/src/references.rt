//! Which manifests refer to a digest.
ghost use Rattle.std.specs.Prelude.{OnOk};
ghost use Rattle.zot_digest.specs.ByteMap.{byte_cmp};
ghost use Rattle.zot_manifests.specs.Index.{Adds, KeepsAll, Removes};
ghost use Rattle.zot_media.specs.References.{has_digest, refers};

use crate::index::Index;
use std::alloc::{AllocError, Global};
use zot_digest::Digest;
use zot_media::{Descriptor, Reading};

impl Index<Digest> {
    /// Lists a manifest under each digest that it refers to. After an `Err` it may be listed under some of them.
    #[tactic(auto, unfolding(zot_media::specs::References::refers))]
    pub fn list_references(
        &mut self,
        alloc: Global,
        digest: &Digest,
        reading: &Reading,
    ) -> Result<(), AllocError>
        ensures keeps { KeepsAll byte_cmp self.old.sets self.new.sets }
        ensures ok { OnOk result (Adds byte_cmp (refers reading.now) digest.now self.old.sets self.new.sets) }
    {
        self.list_each(alloc, digest, reading.references.as_slice())?;
        self.list_each(alloc, digest, reading.children.as_slice())
    }

    // The same of descriptors.
    fn list_each(
        &mut self,
        alloc: Global,
        digest: &Digest,
        descriptors: &[Descriptor],
    ) -> Result<(), AllocError>
        ensures keeps { KeepsAll byte_cmp self.old.sets self.new.sets }
        ensures ok { OnOk result (Adds byte_cmp (λ asked. has_digest asked descriptors.now) digest.now self.old.sets self.new.sets) }
    {
        for descriptor in descriptors {
            self.list(alloc, descriptor.digest, *digest)?;
        }
        Ok(())
    }

    /// Lists a manifest no more under the digests that it refers to. Takes no memory.
    #[tactic(auto, unfolding(zot_media::specs::References::refers))]
    pub fn unlist_references(&mut self, digest: &Digest, reading: &Reading)
        ensures { Removes byte_cmp (refers reading.now) digest.now self.old.sets self.new.sets }
    {
        self.unlist_each(digest, reading.references.as_slice());
        self.unlist_each(digest, reading.children.as_slice());
    }

    // The same of descriptors.
    fn unlist_each(&mut self, digest: &Digest, descriptors: &[Descriptor])
        ensures { Removes byte_cmp (λ asked. has_digest asked descriptors.now) digest.now self.old.sets self.new.sets }
    {
        for descriptor in descriptors {
            self.unlist(&descriptor.digest, digest);
        }
    }
}
