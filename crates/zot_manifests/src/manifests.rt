//! The manifests and tags of one repository.
ghost use Rattle.std.specs.Prelude.{◌≡◌, ◌≢◌, false, true, IfOk, IsTrue, OnErr, OnOk, option_copied, option_map};
ghost use Rattle.std.specs.FinMap as finite;
ghost use Rattle.zot_digest.specs.ByteMap.{byte_cmp, map_of};
ghost use Rattle.zot_manifests.specs.Tags.{AreTags};
ghost use Rattle.zot_manifests.specs.Table.{empty_table, found_by, is_referred, pulled, put_back, says, tag_before, taken_back, with_manifest, without_manifest, without_tag};
ghost use Rattle.zot_manifests.specs.Index.{Adds, KeepsAll};
ghost use Rattle.zot_manifests.specs.Replacing.{IsPut, Replaces};
ghost use Rattle.zot_media.specs.References.{refers};
ghost use Rattle.zot_model.specs.Manifests.{with_tag};
ghost use Rattle.zot_model.specs.Pages.{page};

use crate::checked::Checked;
use crate::index::Index;
use crate::kept::Kept;
use crate::manifest_map::ManifestMap;
use crate::page::Page;
use crate::replaced::Replaced;
use crate::tag_entry::TagEntry;
use crate::tags::Tags;
use std::alloc::{AllocError, Global};
use std::collections::BTreeMap;
use std::marker::Model;
use zot_digest::{Digest, Words};
use zot_media::{Reading, Reference};
use zot_names::Tag;

/// The manifests and tags of one repository, with an index of what the manifests refer to. Contracts see two finite maps.
#[derive(Drop)]
pub struct Manifests {
    manifests: ManifestMap,
    tags: Tags,
    index: Index<Digest>,
    // Whether each manifest is listed under what it refers to. It isn't where memory ran out while one was put back.
    listed: bool,
}

impl Model for Manifests {
    ghost use Rattle.std.specs.Prelude.{◌≡◌, true};
    ghost use Rattle.zot_manifests.specs.Codes.{table_code};
    ghost use Rattle.zot_manifests.specs.Index.{ListsAll};
    ghost use Rattle.zot_manifests.specs.Table.{Table};

    ghost Value = { Table };

    ghost coded = { table_code };

    ghost view = { λ m. record { manifests = m.manifests; tags = m.tags } };

    ghost invariant = { λ m. m.listed ≡ true → ListsAll m.manifests m.index.sets };
}

impl Manifests {
    /// No manifests. Takes no memory.
    pub fn new(alloc: Global) -> Self
        ensures { result ≡ empty_table }
    {
        Manifests {
            manifests: ManifestMap::new(alloc),
            tags: Tags::new(alloc),
            index: Index::new(alloc),
            listed: true,
        }
    }

    /// Whether there are neither manifests nor tags. Takes no memory.
    pub fn is_empty(&self) -> bool
        ensures empty { result ≡ true → self.now ≡ empty_table }
        ensures other { result ≡ false → self.now ≢ empty_table }
    {
        self.manifests.is_empty() && self.tags.map().is_empty()
    }

    /// Puts a manifest that arrives at the moment, and sets its tag, if it has one, to it. After an `Err`, which comes only where memory runs out, the table is as it was.
    pub fn put(&mut self, alloc: Global, checked: Checked, moment: u64) -> Result<(), AllocError>
        ensures ok { OnOk result (self.new ≡ with_manifest moment self.old checked.digest checked.tag checked.media checked.reading) }
        ensures err { OnErr result (self.new ≡ self.old) }
    {
        let Checked {
            digest,
            media,
            tag,
            reading,
            size: _,
        } = checked;
        self.index.list_references(alloc, &digest, &reading)?;
        let kept = Kept {
            media,
            arrived: moment,
            reading,
        };
        let before = self.manifests.set(digest, kept)?;
        put_tag(
            alloc,
            &mut self.manifests,
            &mut self.tags,
            digest,
            tag,
            moment,
            before,
        )
    }

    /// The same, and what it replaced is answered, by which `take_back` takes it back.
    pub fn place(
        &mut self,
        alloc: Global,
        checked: Checked,
        moment: u64,
    ) -> Result<Replaced, AllocError>
        ensures ok { OnOk result (self.new ≡ with_manifest moment self.old checked.digest checked.tag checked.media checked.reading) }
        ensures replaced { IfOk result (λ replaced. Replaces replaced self.old checked) }
        ensures err { OnErr result (self.new ≡ self.old) }
    {
        let replaced = self.replaced_by(alloc, &checked)?;
        self.put(alloc, checked, moment)?;
        Ok(replaced)
    }

    // What a manifest that is to be put replaces.
    fn replaced_by(&self, alloc: Global, checked: &Checked) -> Result<Replaced, AllocError>
        ensures { IfOk result (λ replaced. Replaces replaced self.now checked.now) }
    {
        let manifest = copy_kept(alloc, self.manifests.get(&checked.digest))?;
        let tag = copy_tag(alloc, &checked.tag)?;
        let entry = self.entry(&checked.tag);
        Ok(Replaced {
            digest: checked.digest,
            manifest,
            tag,
            entry,
        })
    }

    // What is kept of a tag, where one is given.
    fn entry(&self, tag: &Option<Tag>) -> Option<TagEntry>
        ensures { result ≡ tag_before self.now.tags tag.now }
    {
        match tag {
            Some(tag) => self.tags.map().get(tag).map(|entry| entry.copy()),
            None => None,
        }
    }

    /// Takes back a manifest that was put: what it replaced is there again. Where memory runs out, what manifests refer to isn't listed any more, and they are all looked at.
    pub fn take_back(&mut self, alloc: Global, replaced: Replaced)
        requires { IsPut replaced self.old }
        ensures { self.new ≡ taken_back self.old replaced.digest replaced.manifest replaced.tag replaced.entry }
    {
        let Replaced {
            digest,
            manifest,
            tag,
            entry,
        } = replaced;
        self.put_back(alloc, digest, manifest);
        if let Some(tag) = tag {
            self.tags.put_back(alloc, &tag, entry);
        }
    }

    // Puts back what was under a digest, where there is a manifest now.
    fn put_back(&mut self, alloc: Global, digest: Digest, before: Option<Kept>)
        requires { IsTrue (finite.contains_key self.old.manifests digest) }
        ensures { self.new ≡ record { manifests = put_back self.old.manifests digest before; tags = self.old.tags } }
    {
        match before {
            Some(kept) => self.set_again(alloc, digest, kept),
            None => {
                let _ = self.forget(&digest);
            }
        }
    }

    // Sets the manifest of a digest, where there is one now.
    fn set_again(&mut self, alloc: Global, digest: Digest, kept: Kept)
        requires { IsTrue (finite.contains_key self.old.manifests digest) }
        ensures { self.new ≡ record { manifests = finite.insert self.old.manifests digest kept; tags = self.old.tags } }
    {
        let listed = list_again(&mut self.index, alloc, &digest, &kept.reading);
        self.listed = self.listed && listed;
        self.manifests.put_back(digest, Some(kept));
    }

    /// Sets a tag to the manifest of a digest at the moment. After an `Err`, which comes only where memory runs out, the table is as it was.
    pub fn set_tag(
        &mut self,
        alloc: Global,
        tag: Tag,
        digest: Digest,
        moment: u64,
    ) -> Result<(), AllocError>
        ensures ok { OnOk result (self.new ≡ record { manifests = self.old.manifests; tags = with_tag moment self.old.tags (Some tag) digest }) }
        ensures err { OnErr result (self.new ≡ self.old) }
    {
        self.tags.set(alloc, tag, TagEntry::new(digest, moment))
    }

    /// Removes a tag, and answers whether there was one; else nothing changes. Takes no memory.
    pub fn remove_tag(&mut self, tag: &Tag) -> bool
        ensures was { result ≡ finite.contains_key self.old.tags tag.now }
        ensures removed { result ≡ true → self.new ≡ without_tag self.old tag.now }
        ensures stays { result ≡ false → self.new ≡ self.old }
    {
        self.tags.remove(tag)
    }

    /// Removes a manifest and its tags, and answers whether there was one; else nothing changes. Takes no memory.
    pub fn remove(&mut self, digest: &Digest) -> bool
        ensures was { result ≡ finite.contains_key self.old.manifests digest.now }
        ensures removed { result ≡ true → self.new ≡ without_manifest self.old digest.now }
        ensures stays { result ≡ false → self.new ≡ self.old }
    {
        if !self.forget(digest) {
            return false;
        }
        self.tags.remove_of(digest);
        true
    }

    // Removes a manifest, whose tags stay, and answers whether there was one.
    fn forget(&mut self, digest: &Digest) -> bool
        ensures was { result ≡ finite.contains_key self.old.manifests digest.now }
        ensures removed { self.new ≡ record { manifests = finite.remove self.old.manifests digest.now; tags = self.old.tags } }
        ensures stays { result ≡ false → self.new ≡ self.old }
    {
        let Some(kept) = self.manifests.remove(digest) else {
            return false;
        };
        self.index.unlist_references(digest, &kept.reading);
        true
    }

    /// Counts a pull by a reference at the moment: a tag has one pull more. Takes no memory.
    pub fn pull(&mut self, reference: &Reference, moment: u64)
        ensures { self.new ≡ pulled moment self.old reference.now }
    {
        if let Reference::Tag(tag) = reference {
            self.tags.pull(tag, moment);
        }
    }

    /// The digest that a reference finds: that of the tag's manifest, or the digest itself where there is such a manifest. Takes no memory.
    pub fn find(&self, reference: &Reference) -> Option<Digest>
        ensures { result ≡ found_by self.now reference.now }
    {
        match reference {
            Reference::Tag(tag) => self.tags.map().get(tag).map(|entry| entry.digest()),
            Reference::Digest(digest) => self.manifests.get(digest).map(|_| *digest),
        }
    }

    /// The manifest of a digest. Takes no memory.
    pub fn manifest(&self, digest: &Digest) -> Option<&Kept>
        ensures { option_copied result ≡ finite.get self.now.manifests digest.now }
    {
        self.manifests.get(digest)
    }

    /// Whether there is a manifest of a digest. Takes no memory.
    pub fn has(&self, digest: &Digest) -> bool
        ensures { result ≡ finite.contains_key self.now.manifests digest.now }
    {
        self.manifests.get(digest).is_some()
    }

    /// Whether there is a tag. Takes no memory.
    pub fn has_tag(&self, tag: &Tag) -> bool
        ensures { result ≡ finite.contains_key self.now.tags tag.now }
    {
        self.tags.map().get(tag).is_some()
    }

    /// The manifests in a tree by their digests.
    pub fn manifests(&self) -> &BTreeMap<Digest, Kept>
        ensures { map_of result.now.entries ≡ self.now.manifests }
    {
        self.manifests.tree()
    }

    /// The tags in a tree by their texts.
    pub fn tags(&self) -> &BTreeMap<Words, TagEntry>
        ensures value { map_of result.now.entries ≡ self.now.tags }
        ensures tags { AreTags (map_of result.now.entries) }
    {
        self.tags.map().tree()
    }

    /// The page of at most n tags after a text, in byte order. It fails only where memory runs out.
    pub fn page(
        &self,
        alloc: Global,
        n: Option<u64>,
        last: Option<&str>,
    ) -> Result<Page, AllocError>
        ensures tags { IfOk result (λ found. found.tags ≡ (page self.now.tags n (option_map (λ text. text.now) last.entry)).tags) }
        ensures next { IfOk result (λ found. found.next ≡ (page self.now.tags n (option_map (λ text. text.now) last.entry)).next) }
    {
        self.tags.map().page_after(alloc, n, last)
    }

    /// Whether some manifest refers to a digest: by its config, any layer or a child. It looks at those alone that are listed under the digest, or at all where they aren't listed. Takes no memory.
    pub fn refers(&self, digest: &Digest) -> bool
        ensures { result ≡ is_referred self.now.manifests digest.now }
    {
        if !self.listed {
            return refers_among(self.manifests.tree(), digest);
        }
        let Some(listed) = self.index.get(digest) else {
            return false;
        };
        for manifest in listed {
            if self.says(manifest, digest) {
                return true;
            }
        }
        false
    }

    // Whether the manifest of a digest refers to another digest.
    fn says(&self, manifest: &Digest, digest: &Digest) -> bool
        ensures { result ≡ says (finite.get self.now.manifests manifest.now) digest.now }
    {
        match self.manifests.get(manifest) {
            Some(kept) => kept.reading.refers(digest),
            None => false,
        }
    }
}

// Lists a manifest under what it refers to, and answers whether there was memory for it. What was listed is listed still.
fn list_again(index: &mut Index<Digest>, alloc: Global, digest: &Digest, reading: &Reading) -> bool
    ensures keeps { KeepsAll byte_cmp index.old.sets index.new.sets }
    ensures listed { result ≡ true → Adds byte_cmp (refers reading.now) digest.now index.old.sets index.new.sets }
{
    index.list_references(alloc, digest, reading).is_ok()
}

// Whether some manifest of a tree refers to a digest, by a look at all.
fn refers_among(tree: &BTreeMap<Digest, Kept>, digest: &Digest) -> bool
    ensures { result ≡ is_referred (map_of tree.now.entries) digest.now }
{
    for (_, kept) in tree.iter() {
        if kept.reading.refers(digest) {
            return true;
        }
    }
    false
}

// A copy of a manifest, where there is one.
fn copy_kept(alloc: Global, kept: Option<&Kept>) -> Result<Option<Kept>, AllocError>
    ensures { IfOk result (λ copy. copy ≡ option_map (λ kept. kept.now) kept.entry) }
{
    match kept {
        Some(kept) => Ok(Some(kept.copy(alloc)?)),
        None => Ok(None),
    }
}

// A copy of a tag, where there is one.
fn copy_tag(alloc: Global, tag: &Option<Tag>) -> Result<Option<Tag>, AllocError>
    ensures { IfOk result (λ copy. copy ≡ tag.now) }
{
    match tag {
        Some(tag) => Ok(Some(tag.copy(alloc)?)),
        None => Ok(None),
    }
}

// Sets a tag, if there is one, to the manifest of a digest. After an `Err` the tags are as they were, and what was under the digest before is there again.
fn put_tag(
    alloc: Global,
    manifests: &mut ManifestMap,
    tags: &mut Tags,
    digest: Digest,
    tag: Option<Tag>,
    moment: u64,
    before: Option<Kept>,
) -> Result<(), AllocError>
    requires { IsTrue (finite.contains_key manifests.now digest) }
    ensures ok { OnOk result ((tags.new ≡ with_tag moment tags.old tag digest) × (manifests.new ≡ manifests.old)) }
    ensures err { OnErr result ((tags.new ≡ tags.old) × (manifests.new ≡ put_back manifests.old digest before)) }
{
    let Some(tag) = tag else {
        return Ok(());
    };
    match tags.set(alloc, tag, TagEntry::new(digest, moment)) {
        Ok(()) => Ok(()),
        Err(error) => {
            manifests.put_back(digest, before);
            Err(error)
        }
    }
}
