//! What manifests say is read from their bytes, one by one.
ghost use Rattle.std.specs.Prelude.{◌≡◌, ◌++◌, ◌∷◌, [], IfOk, OnErr, OnOk, map, if◌then◌else◌};
ghost use Rattle.std.specs.List.{filter};
ghost use Rattle.std.specs.List.Sorted.{IsStrictlySortedBy};
ghost use Rattle.zot_digest.specs.ByteMap.{byte_cmp};
ghost use Rattle.zot_referrers.specs.Listing.{ListsSubjects};
ghost use Rattle.zot_table.specs.Repository.{rereads};
ghost use Rattle.zot_table.specs.Changes.{learned};
ghost use Rattle.zot_table.specs.Tables.{entry_at, is_unread, unread_in};

use crate::repository::Repository;
use crate::slot_map::SlotMap;
use std::alloc::{AllocError, Global};
use std::collections::BTreeMap;
use zot_digest::Digest;
use zot_manifests::{Checked, Kept, Manifests};
use zot_media::read_stored;
use zot_referrers::SubjectIndex;

impl Repository {
    /// The digests of the manifests that are left to be read, in their order. Once there are none, they aren't looked for again until a blob arrives under a manifest's digest. It fails only where memory runs out.
    pub fn unread(&mut self, alloc: Global) -> Result<Vec<Digest>, AllocError>
        ensures list { IfOk result (λ list. list.items ≡ unread_in self.old) }
        ensures stays { self.new ≡ self.old }
    {
        if self.all_read {
            return Ok(Vec::new(alloc));
        }
        let list = unread_among(alloc, self.manifests.manifests(), &self.blobs)?;
        self.all_read = list.is_empty();
        Ok(list)
    }

    /// The bytes of a blob say what the manifest under its digest does, if there is one. After an `Err`, which comes only where memory runs out, the table is as it was.
    pub fn learn(&mut self, alloc: Global, digest: &Digest, bytes: &[u8]) -> Result<(), AllocError>
        ensures ok { OnOk result (self.new ≡ learned self.old digest.now bytes.now) }
        ensures err { OnErr result (self.new ≡ self.old) }
    {
        reread(
            &mut self.manifests,
            &mut self.subjects,
            alloc,
            digest,
            bytes,
        )?;
        self.blobs.mark(digest, false);
        Ok(())
    }
}

// The digests of the manifests whose bytes may say something else than what is kept of them.
fn unread_among(
    alloc: Global,
    tree: &BTreeMap<Digest, Kept>,
    blobs: &SlotMap,
) -> Result<Vec<Digest>, AllocError>
    ensures value { IfOk result (λ list. list.items ≡ map (λ e. e.0) (filter (λ e. is_unread (entry_at blobs.now e.0)) tree.now.entries)) }
    ensures ordered { OnOk result (IsStrictlySortedBy byte_cmp (map (λ e. e.0) tree.now.entries)) }
{
    let mut list = Vec::new(alloc);
    for (digest, _) in tree.iter() {
        add_unread(&mut list, blobs, digest)?;
    }
    Ok(list)
}

// Adds the digest of a manifest that is left to be read.
fn add_unread(list: &mut Vec<Digest>, blobs: &SlotMap, digest: &Digest) -> Result<(), AllocError>
    ensures { OnOk result (list.new.items ≡ list.old.items ++ (if is_unread (entry_at blobs.now digest.now) then digest.now ∷ [] else [])) }
{
    if blobs.is_unread(digest) {
        list.push(*digest)?;
    }
    Ok(())
}

// Reads the manifest of a digest again, if there is one, from these bytes. After an `Err` the table is as it was.
fn reread(
    manifests: &mut Manifests,
    subjects: &mut SubjectIndex,
    alloc: Global,
    digest: &Digest,
    bytes: &[u8],
) -> Result<(), AllocError>
    ensures ok { OnOk result (manifests.new ≡ rereads manifests.old digest.now bytes.now) }
    ensures err { OnErr result (manifests.new ≡ manifests.old) }
    ensures lists { ListsSubjects manifests.old.manifests subjects.old.index.sets → ListsSubjects manifests.new.manifests subjects.new.index.sets }
{
    let Some(kept) = manifests.manifest(digest) else {
        return Ok(());
    };
    let media = kept.media;
    let arrived = kept.arrived;
    let reading = read_stored(alloc, media, bytes)?;
    subjects.add(alloc, digest, &reading)?;
    let checked = Checked {
        digest: *digest,
        media,
        tag: None,
        reading,
        size: bytes.len() as u64,
    };
    manifests.put(alloc, checked, arrived)
}
