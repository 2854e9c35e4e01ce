//! A manifest is put into a repository's table, or taken back.
ghost use Rattle.std.specs.Prelude.{◌≡◌, IfOk, IfSome, OnErr, OnOk, true};
ghost use Rattle.zot_digest.specs.ByteMap.{byte_cmp};
ghost use Rattle.zot_manifests.specs.Index.{Adds, KeepsAll};
ghost use Rattle.zot_referrers.specs.Listing.{says_of};
ghost use Rattle.zot_table.specs.Changes.{with_checked};
ghost use Rattle.zot_table.specs.Putting.{WasPut};
ghost use Rattle.zot_table.specs.Tables.{RepoTable};

use crate::before::Before;
use crate::repository::Repository;
use std::alloc::{AllocError, Global};
use zot_digest::Digest;
use zot_manifests::{Checked, Kept};
use zot_referrers::SubjectIndex;

impl Repository {
    /// Puts a manifest that was checked, and whose bytes are a blob already, at the moment, and sets its tag, if it has one, to it. It answers what there was before, by which `take_back` takes it back. After an `Err`, which comes only where memory runs out, the table is as it was.
    pub fn put_manifest(
        &mut self,
        alloc: Global,
        checked: Checked,
        moment: u64,
    ) -> Result<Before, AllocError>
        ensures ok { OnOk result (self.new ≡ with_checked moment self.old checked) }
        ensures put { IfOk result (λ before. WasPut before self.old self.new) }
        ensures err { OnErr result (self.new ≡ self.old) }
    {
        let digest = checked.digest;
        self.subjects.add(alloc, &digest, &checked.reading)?;
        let unread = self.blobs.is_unread(&digest);
        let replaced = self.manifests.place(alloc, checked, moment)?;
        self.blobs.mark(&digest, false);
        Ok(Before { replaced, unread })
    }

    /// Takes back a manifest that was put: the table is as it was before. It may take memory; where that runs out, manifests or tags aren't listed any more under what they refer to, and from then on all are looked at.
    pub fn take_back(&mut self, alloc: Global, before: Before)
        requires { (old : RepoTable) × WasPut before old self.old }
        ensures { (old : RepoTable) → WasPut before old self.old → self.new ≡ old }
    {
        let Before { replaced, unread } = before;
        let digest = replaced.digest;
        let listed = list_again(&mut self.subjects, alloc, &digest, &replaced.manifest);
        self.listed = self.listed && listed;
        self.blobs.mark(&digest, unread);
        self.all_read = false;
        self.manifests.take_back(alloc, replaced);
    }
}

// Lists a manifest, if there is one, under its subject, and answers whether there was memory for it. What was listed is listed still.
fn list_again(
    subjects: &mut SubjectIndex,
    alloc: Global,
    digest: &Digest,
    manifest: &Option<Kept>,
) -> bool
    ensures keeps { KeepsAll byte_cmp subjects.old.index.sets subjects.new.index.sets }
    ensures listed { result ≡ true → IfSome manifest.now (λ kept. Adds byte_cmp (says_of kept.reading) digest.now subjects.old.index.sets subjects.new.index.sets) }
{
    match manifest {
        Some(kept) => subjects.add(alloc, digest, &kept.reading).is_ok(),
        None => true,
    }
}
