//! The table of a repository that an index opens.
ghost use Rattle.std.specs.Prelude.{◌≡◌, IfOk, OnErr, OnOk, map};
ghost use Rattle.std.specs.FinMap as finite;
ghost use Rattle.zot_layout.specs.Stands.{opened_tag};
ghost use Rattle.zot_layout.specs.State.{IsIndex};
ghost use Rattle.zot_table.specs.Opening.{opened_kept, opened_table, put_each, with_found};

use crate::repository::Repository;
use crate::slot_map::SlotMap;
use std::alloc::{AllocError, Global};
use zot_digest::Digest;
use zot_layout::{IndexManifest, IndexState, IndexTag};
use zot_manifests::{Checked, Manifests};
use zot_media::Reading;
use zot_referrers::SubjectIndex;
use zot_uploads::Uploads;

impl Repository {
    /// The table of a known repository with the manifests and tags of an index. Of its blobs nothing is kept yet, and it isn't known what the manifests say. It fails only where memory runs out.
    pub fn open(alloc: Global, index: IndexState) -> Result<Repository, AllocError>
        requires { IsIndex index }
        ensures { IfOk result (λ repository. repository ≡ opened_table index) }
    {
        let manifests = manifests_of(alloc, index)?;
        Ok(Repository {
            known: true,
            blobs: SlotMap::new(alloc),
            manifests,
            subjects: SubjectIndex::new(alloc),
            listed: true,
            all_read: true,
            sessions: Uploads::new(alloc),
        })
    }

    /// A blob of so many bytes is found to be held, as one that arrived at the moment. The repository is known only where it was. After an `Err`, which comes only where memory runs out, the table is as it was.
    pub fn hold_found(&mut self, digest: &Digest, size: u64, moment: u64) -> Result<(), AllocError>
        ensures ok { OnOk result (self.new ≡ with_found moment self.old digest.now size) }
        ensures err { OnErr result (self.new ≡ self.old) }
    {
        let known = self.known();
        self.hold(digest, size, moment)?;
        self.set_known(known);
        Ok(())
    }
}

// The manifests and tags of an index.
fn manifests_of(alloc: Global, index: IndexState) -> Result<Manifests, AllocError>
    requires { IsIndex index }
    ensures { IfOk result (λ manifests. manifests ≡ (opened_table index).table) }
{
    let IndexState { manifests, tags } = index;
    let mut table = Manifests::new(alloc);
    put_manifests(alloc, &mut table, manifests.as_slice())?;
    set_tags(alloc, &mut table, tags.into_vec())?;
    Ok(table)
}

// Puts these manifests, of which it isn't known what they say.
fn put_manifests(
    alloc: Global,
    table: &mut Manifests,
    manifests: &[IndexManifest],
) -> Result<(), AllocError>
    ensures { OnOk result (table.new ≡ record { manifests = put_each table.old.manifests (map opened_kept manifests.now); tags = table.old.tags }) }
{
    for manifest in manifests {
        put_manifest(alloc, table, manifest)?;
    }
    Ok(())
}

// Puts a manifest of which it isn't known what it says.
fn put_manifest(
    alloc: Global,
    table: &mut Manifests,
    manifest: &IndexManifest,
) -> Result<(), AllocError>
    ensures { OnOk result (table.new ≡ record { manifests = finite.insert table.old.manifests (opened_kept manifest.now).0 (opened_kept manifest.now).1; tags = table.old.tags }) }
{
    let checked = Checked {
        digest: manifest.digest,
        media: manifest.media,
        tag: None,
        reading: Reading::empty(alloc),
        size: manifest.size,
    };
    table.put(alloc, checked, manifest.arrived)
}

// Sets these tags.
fn set_tags(alloc: Global, table: &mut Manifests, tags: Vec<IndexTag>) -> Result<(), AllocError>
    ensures { OnOk result (table.new ≡ record { manifests = table.old.manifests; tags = put_each table.old.tags (map opened_tag tags.items) }) }
{
    for tag in tags {
        table.set_tag(alloc, tag.tag, tag.digest, tag.pushed)?;
    }
    Ok(())
}
