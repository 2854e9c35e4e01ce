//! Which manifests say something of a digest.
ghost use Rattle.std.specs.Prelude.{◌≡◌, ◌++◌, IfOk, OnErr, OnOk, map, option_map, string_bytes};
ghost use Rattle.std.specs.List.{flat_map};
ghost use Rattle.std.specs.List.Sorted.{IsStrictlySortedBy};
ghost use Rattle.serde_json.specs.View.{view};
ghost use Rattle.zot_digest.specs.ByteMap.{byte_cmp};
ghost use Rattle.zot_manifests.specs.Index.{Adds, KeepsJust, ListsNone, Removes};
ghost use Rattle.zot_media.specs.Referrers.{descriptor_value, is_listed, passes, referrers_among, referrers_text};
ghost use Rattle.zot_referrers.specs.Listing.{ListsSubjects, all_pushed, found_in, listed_entry, says_of};

use crate::text::{descriptor, listing_text};
use serde_json::Value;
use std::alloc::{AllocError, Global};
use std::collections::BTreeSet;
use zot_digest::Digest;
use zot_manifests::{Held, Index, Kept, Manifests};
use zot_media::Reading;

/// Under each digest, the digests of the manifests that may say something of it. Those that do are among them.
#[derive(Drop)]
pub struct SubjectIndex {
    index: Index<Digest>,
}

impl SubjectIndex {
    /// No manifests. Takes no memory.
    pub fn new(alloc: Global) -> Self
        ensures { ListsNone byte_cmp result.index.sets }
    {
        SubjectIndex {
            index: Index::new(alloc),
        }
    }

    /// Lists a manifest under its subject, if it has one. It fails only where memory runs out, and then lists the same as before.
    pub fn add(
        &mut self,
        alloc: Global,
        digest: &Digest,
        reading: &Reading,
    ) -> Result<(), AllocError>
        ensures ok { OnOk result (Adds byte_cmp (says_of reading.now) digest.now self.old.index.sets self.new.index.sets) }
        ensures err { OnErr result (KeepsJust byte_cmp self.old.index.sets self.new.index.sets) }
    {
        match reading.subject_digest() {
            Some(subject) => self.index.list(alloc, subject, *digest),
            None => Ok(()),
        }
    }

    /// Lists a manifest no more. Takes no memory.
    pub fn remove(&mut self, digest: &Digest, reading: &Reading)
        ensures { Removes byte_cmp (says_of reading.now) digest.now self.old.index.sets self.new.index.sets }
    {
        if let Some(subject) = reading.subject_digest() {
            self.index.unlist(&subject, digest);
        }
    }

    /// The text of the list of the manifests that say something of a digest, those alone of an artifact type where one is given. It looks at no manifest but those that are listed under the digest, and fails only where memory runs out.
    pub fn text<H: Held>(
        &self,
        alloc: Global,
        manifests: &Manifests,
        held: &H,
        subject: &Digest,
        wanted: Option<&str>,
    ) -> Result<String, AllocError>
        requires { ListsSubjects manifests.now.manifests self.now.index.sets }
        ensures { IfOk result (λ text. string_bytes text
            ≡ referrers_text (all_pushed (H.sizes held.now) manifests.now.manifests) subject.now (option_map (λ text. text.now) wanted.entry)) }
    {
        let descriptors = self.descriptors(alloc, manifests, held, subject, wanted)?;
        listing_text(alloc, descriptors)
    }

    // The descriptors in that list.
    fn descriptors<H: Held>(
        &self,
        alloc: Global,
        manifests: &Manifests,
        held: &H,
        subject: &Digest,
        wanted: Option<&str>,
    ) -> Result<Vec<Value>, AllocError>
        requires { ListsSubjects manifests.now.manifests self.now.index.sets }
        ensures { IfOk result (λ descriptors. map view descriptors.items
            ≡ map descriptor_value (referrers_among (all_pushed (H.sizes held.now) manifests.now.manifests) subject.now (option_map (λ text. text.now) wanted.entry))) }
    {
        match self.index.get(subject) {
            Some(listed) => descriptors(alloc, listed, manifests, held, subject, wanted),
            None => Ok(Vec::new(alloc)),
        }
    }
}

// The descriptors of those of the listed manifests that say something of the digest and have the artifact type, if one is wanted.
fn descriptors<H: Held>(
    alloc: Global,
    listed: &BTreeSet<Digest>,
    manifests: &Manifests,
    held: &H,
    subject: &Digest,
    wanted: Option<&str>,
) -> Result<Vec<Value>, AllocError>
    ensures found { IfOk result (λ descriptors. map view descriptors.items
        ≡ map descriptor_value (flat_map (found_in (H.sizes held.now) manifests.now.manifests subject.now (option_map (λ text. text.now) wanted.entry)) listed.now.keys)) }
    ensures ordered { OnOk result (IsStrictlySortedBy byte_cmp listed.now.keys) }
{
    let mut descriptors = Vec::new(alloc);
    for digest in listed {
        add_found(
            alloc,
            &mut descriptors,
            manifests,
            held,
            digest,
            subject,
            wanted,
        )?;
    }
    Ok(descriptors)
}

// Adds the descriptor of what is kept under a digest, if it says something of the subject and has the artifact type, if one is wanted.
fn add_found<H: Held>(
    alloc: Global,
    descriptors: &mut Vec<Value>,
    manifests: &Manifests,
    held: &H,
    digest: &Digest,
    subject: &Digest,
    wanted: Option<&str>,
) -> Result<(), AllocError>
    ensures { OnOk result (map view descriptors.new.items ≡ map view descriptors.old.items
        ++ map descriptor_value (found_in (H.sizes held.now) manifests.now.manifests subject.now (option_map (λ text. text.now) wanted.entry) digest.now)) }
{
    let Some(kept) = manifests.manifest(digest) else {
        return Ok(());
    };
    add_listed(alloc, descriptors, held, digest, kept, subject, wanted)
}

/// Adds the descriptor of a manifest that is kept under a digest, if it says something of the subject and has the artifact type, if one is wanted.
pub fn add_listed<H: Held>(
    alloc: Global,
    descriptors: &mut Vec<Value>,
    held: &H,
    digest: &Digest,
    kept: &Kept,
    subject: &Digest,
    wanted: Option<&str>,
) -> Result<(), AllocError>
    ensures { OnOk result (map view descriptors.new.items ≡ map view descriptors.old.items
        ++ map descriptor_value (listed_entry (H.sizes held.now) subject.now (option_map (λ text. text.now) wanted.entry) (digest.now, kept.now))) }
{
    if is_listed(&kept.reading, subject, wanted) {
        let size = held.size(digest).unwrap_or(0);
        descriptors.push(descriptor(alloc, digest, size, kept)?)?;
    }
    Ok(())
}

// Whether a manifest says something of the digest and has the artifact type, if one is wanted.
fn is_listed(reading: &Reading, subject: &Digest, wanted: Option<&str>) -> bool
    ensures { result ≡ is_listed subject.now (option_map (λ text. text.now) wanted.entry) reading.now }
{
    says_of(reading, subject) && passes(reading.artifact_type(), wanted)
}

// Whether a manifest says something of the digest.
fn says_of(reading: &Reading, digest: &Digest) -> bool
    ensures { result ≡ says_of reading.now digest.now }
{
    match reading.subject_digest() {
        Some(subject) => subject == *digest,
        None => false,
    }
}

// Whether a filter lets an artifact type pass.
fn passes(artifact: Option<&str>, wanted: Option<&str>) -> bool
    ensures { result ≡ passes (option_map (λ text. text.now) wanted.entry) (option_map (λ text. text.now) artifact.entry) }
{
    match (artifact, wanted) {
        (_, None) => true,
        (Some(artifact), Some(wanted)) => artifact == wanted,
        (None, Some(_)) => false,
    }
}
