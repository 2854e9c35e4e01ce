//! The tags of a repository, with an index of what they are set to.
ghost use Rattle.std.specs.Prelude.{◌≡◌, IsTrue, OnErr, OnOk, false, true};
ghost use Rattle.std.specs.FinMap as finite;
ghost use Rattle.zot_digest.specs.ByteMap.{byte_cmp};
ghost use Rattle.zot_manifests.specs.Index.{KeepsAll, Removes, has};
ghost use Rattle.zot_manifests.specs.Table.{put_back};
ghost use Rattle.zot_manifests.specs.Tags.{is_moved_from};
ghost use Rattle.zot_model.specs.Manifests.{is_tag_of, with_pull, without_tags_of};

use crate::index::Index;
use crate::tag_entry::TagEntry;
use crate::tag_map::TagMap;
use std::alloc::{AllocError, Global};
use std::marker::Model;
use zot_digest::{Digest, Words};
use zot_names::Tag;

/// The tags of a repository, and under the digest of each manifest the texts that may be set to it, so that these are found without a look at all tags. Contracts see the finite map.
#[derive(Drop)]
pub struct Tags {
    map: TagMap,
    index: Index<Words>,
    // Whether each tag is listed. It isn't where memory ran out while one was put back.
    listed: bool,
}

impl Model for Tags {
    ghost use Rattle.std.specs.Prelude.{◌≡◌, true};
    ghost use Rattle.zot_digest.specs.ByteMap.{ByteMap};
    ghost use Rattle.zot_manifests.specs.Codes.{tags_code};
    ghost use Rattle.zot_manifests.specs.Tags.{ListsTags};
    ghost use Rattle.zot_model.specs.State.{StoredTag};

    ghost Value = { ByteMap StoredTag };

    ghost coded = { tags_code };

    ghost view = { λ t. t.map };

    ghost invariant = { λ t. t.listed ≡ true → ListsTags t.map t.index.sets };
}

impl Tags {
    /// No tags. Takes no memory.
    pub fn new(alloc: Global) -> Self
        ensures { result ≡ finite.empty }
    {
        Tags {
            map: TagMap::new(alloc),
            index: Index::new(alloc),
            listed: true,
        }
    }

    /// The same tags, without the index.
    pub fn map(&self) -> &TagMap
        ensures { result.now ≡ self.now }
    {
        &self.map
    }

    /// Sets a tag. After an `Err` the tags are as they were.
    pub fn set(&mut self, alloc: Global, tag: Tag, entry: TagEntry) -> Result<(), AllocError>
        ensures ok { OnOk result (self.new ≡ finite.insert self.old tag entry) }
        ensures err { OnErr result (self.new ≡ self.old) }
    {
        let digest = entry.digest();
        self.index.list(alloc, digest, tag.words().copy(alloc)?)?;
        unlist_moved(&self.map, &mut self.index, &tag, &digest);
        self.map.set(tag, entry)
    }

    /// Removes a tag, and answers whether there was one; else nothing changes.
    pub fn remove(&mut self, tag: &Tag) -> bool
        ensures was { result ≡ finite.contains_key self.old tag.now }
        ensures removed { self.new ≡ finite.remove self.old tag.now }
        ensures stays { result ≡ false → self.new ≡ self.old }
    {
        unlist_tag(&self.map, &mut self.index, tag);
        self.map.remove(tag)
    }

    /// Puts back what was kept of a tag, where there is one now. Where memory runs out, tags aren't listed any more.
    pub fn put_back(&mut self, alloc: Global, tag: &Tag, before: Option<TagEntry>)
        requires { IsTrue (finite.contains_key self.old tag.now) }
        ensures { self.new ≡ put_back self.old tag.now before }
    {
        match before {
            Some(entry) => self.set_again(alloc, tag, entry),
            None => {
                let _ = self.remove(tag);
            }
        }
    }

    // Sets a tag that is there.
    fn set_again(&mut self, alloc: Global, tag: &Tag, entry: TagEntry)
        requires { IsTrue (finite.contains_key self.old tag.now) }
        ensures { self.new ≡ finite.insert self.old tag.now entry }
    {
        unlist_tag(&self.map, &mut self.index, tag);
        let listed = list_again(&mut self.index, alloc, tag, &entry.digest());
        self.listed = self.listed && listed;
        self.map.replace(tag, entry);
    }

    /// Removes the tags of a manifest. It looks at those alone that are listed under its digest, or at all where tags aren't listed.
    pub fn remove_of(&mut self, digest: &Digest)
        ensures { self.new ≡ without_tags_of self.old digest.now }
    {
        if !self.listed {
            self.map.remove_of(digest);
            return;
        }
        if let Some(texts) = self.index.take(digest) {
            self.map.remove_each(&texts, digest);
        }
    }

    /// Counts a pull of a tag at the moment, where there is such a tag.
    pub fn pull(&mut self, tag: &Tag, moment: u64)
        ensures { self.new ≡ with_pull moment self.old tag.now (finite.get self.old tag.now) }
    {
        self.map.pull(tag, moment);
    }
}

// Lists a tag under a manifest, and answers whether there was memory for it. What was listed is listed still.
fn list_again(index: &mut Index<Words>, alloc: Global, tag: &Tag, digest: &Digest) -> bool
    ensures keeps { KeepsAll byte_cmp index.old.sets index.new.sets }
    ensures listed { result ≡ true → has byte_cmp index.new.sets digest.now tag.now ≡ true }
{
    match tag.words().copy(alloc) {
        Ok(text) => index.list(alloc, *digest, text).is_ok(),
        Err(_) => false,
    }
}

// Lists a tag no more under the manifest that it is set to, where that is another one than this.
fn unlist_moved(map: &TagMap, index: &mut Index<Words>, tag: &Tag, digest: &Digest)
    ensures { Removes byte_cmp (is_moved_from digest.now (finite.get map.now tag.now)) tag.now index.old.sets index.new.sets }
{
    if !map.is_set_to(tag.words(), digest) {
        unlist_tag(map, index, tag);
    }
}

// Lists a tag no more under the manifest that it is set to.
fn unlist_tag(map: &TagMap, index: &mut Index<Words>, tag: &Tag)
    ensures { Removes byte_cmp (λ digest. is_tag_of digest (finite.get map.now tag.now)) tag.now index.old.sets index.new.sets }
{
    if let Some(entry) = map.get(tag) {
        index.unlist(&entry.digest(), tag.words());
    }
}
