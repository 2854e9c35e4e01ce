//! What is asked of manifests and tags in a repository's table, and what becomes of them.
ghost use Rattle.std.specs.Prelude.{◌≡◌, IfOk, false, option_map, string_bytes, true};
ghost use Rattle.zot_manifests.specs.Check.{Answers, check_of};
ghost use Rattle.zot_media.specs.Referrers.{referrers_text};
ghost use Rattle.zot_model.specs.Pages.{page};
ghost use Rattle.zot_referrers.specs.Listing.{all_pushed};
ghost use Rattle.zot_table.specs.Changes.{with_pull_of, without_named};
ghost use Rattle.zot_table.specs.Tables.{found_in, has_named, size_at};
ghost use Rattle.zot_media.specs.declared.reference.Reference.TheVariants as by;

use crate::found_entry::FoundEntry;
use crate::repository::Repository;
use std::alloc::{AllocError, Global};
use zot_digest::Digest;
use zot_manifests::{CheckError, Checked, Held, Page};
use zot_media::{Media, Reference};
use zot_referrers::text_of_all;

impl Repository {
    /// The manifest that a reference finds, where its blob is there. Takes no memory.
    pub fn find(&self, reference: &Reference) -> Option<FoundEntry>
        ensures { result ≡ found_in self.now reference.now }
    {
        let Some(digest) = self.manifests.find(reference) else {
            return None;
        };
        let Some(kept) = self.manifests.manifest(&digest) else {
            return None;
        };
        let Some(size) = self.blobs.size(&digest) else {
            return None;
        };
        Some(FoundEntry {
            digest,
            media: kept.media,
            size,
        })
    }

    /// Whether a manifest may be put, and what is put then, by `Manifests::check`.
    pub fn check(
        &self,
        alloc: Global,
        reference: &Reference,
        media: Option<Media>,
        body: &[u8],
    ) -> Result<Checked, CheckError>
        ensures { Answers result (check_of (size_at self.now.slots) reference.now media body.now) }
    {
        self.manifests
            .check(alloc, &self.blobs, reference, media, body)
    }

    /// Whether there is a manifest or a tag that a reference names. Takes no memory.
    pub fn has_named(&self, reference: &Reference) -> bool
        ensures { result ≡ has_named self.now reference.now }
    {
        match reference {
            Reference::Tag(tag) => self.manifests.has_tag(tag),
            Reference::Digest(digest) => self.manifests.has(digest),
        }
    }

    /// The manifest or the tag that a reference names goes, a manifest with its tags. It answers whether there was one; else nothing changes. Takes no memory.
    pub fn remove_named(&mut self, reference: &Reference) -> bool
        ensures was { result ≡ has_named self.old reference.now }
        ensures removed { result ≡ true → self.new ≡ without_named self.old reference.now }
        ensures stays { result ≡ false → self.new ≡ self.old }
    {
        match reference {
            Reference::Tag(tag) => self.manifests.remove_tag(tag),
            Reference::Digest(digest) => self.remove_manifest(digest),
        }
    }

    // The manifest of a digest goes with its tags.
    fn remove_manifest(&mut self, digest: &Digest) -> bool
        ensures was { result ≡ has_named self.old (by.Digest digest.now) }
        ensures removed { result ≡ true → self.new ≡ without_named self.old (by.Digest digest.now) }
        ensures stays { result ≡ false → self.new ≡ self.old }
    {
        let Some(kept) = self.manifests.manifest(digest) else {
            return false;
        };
        self.subjects.remove(digest, &kept.reading);
        self.manifests.remove(digest)
    }

    /// Counts a pull by a reference at the moment: a tag has one pull more. Takes no memory.
    pub fn pull(&mut self, reference: &Reference, moment: u64)
        ensures { self.new ≡ with_pull_of moment self.old reference.now }
    {
        self.manifests.pull(reference, moment);
    }

    /// The page of at most n tags after a text, in byte order. It fails only where memory runs out.
    pub fn page(
        &self,
        alloc: Global,
        n: Option<u64>,
        last: Option<&str>,
    ) -> Result<Page, AllocError>
        ensures tags { IfOk result (λ found. found.tags ≡ (page self.now.table.tags n (option_map (λ text. text.now) last.entry)).tags) }
        ensures next { IfOk result (λ found. found.next ≡ (page self.now.table.tags n (option_map (λ text. text.now) last.entry)).next) }
    {
        self.manifests.page(alloc, n, last)
    }

    /// The text of the list of the manifests that say something of a digest, by what is kept of them, those alone of an artifact type where one is given. It looks at those alone that are listed under the digest, or at all where they aren't listed, and fails only where memory runs out.
    pub fn referrers(
        &self,
        alloc: Global,
        subject: &Digest,
        wanted: Option<&str>,
    ) -> Result<String, AllocError>
        ensures { IfOk result (λ text. string_bytes text
            ≡ referrers_text (all_pushed (size_at self.now.slots) self.now.table.manifests) subject.now (option_map (λ text. text.now) wanted.entry)) }
    {
        if !self.listed {
            return text_of_all(alloc, &self.manifests, &self.blobs, subject, wanted);
        }
        self.subjects
            .text(alloc, &self.manifests, &self.blobs, subject, wanted)
    }
}
