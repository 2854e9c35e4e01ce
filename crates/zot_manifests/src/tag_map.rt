//! The tags of a repository.
ghost use Rattle.std.specs.Prelude.{◌≡◌, ◌↔◌, IsTrue, ℕ, List, take, drop, map, IfOk, OnErr, OnOk, if◌then◌else◌, false, None, option_copied, option_map};
ghost use Rattle.std.specs.FinMap as finite;
ghost use Rattle.std.specs.List.{AllByRecursion};
ghost use Rattle.std.specs.BTreeMap.{is_at};
ghost use Rattle.std.specs.BTreeSet.{contains};
ghost use Rattle.zot_digest.specs.ByteMap.{byte_cmp, map_of};
ghost use Rattle.zot_manifests.specs.Tags.{AreTags, after, kept_unless};
ghost use Rattle.zot_model.specs.Manifests.{is_tag_of, with_pull, without_tags_of};
ghost use Rattle.zot_model.specs.Pages.{last_of, page};
ghost use Rattle.zot_names.specs.Tag.{IsTag};

use crate::page::Page;
use crate::tag_entry::TagEntry;
use std::alloc::{AllocError, Global};
use std::collections::btree_map::Range;
use std::collections::{BTreeMap, BTreeSet};
use std::marker::Model;
use std::ops::Bound;
use zot_digest::{Digest, Words};
use zot_names::{Tag, TagList};

/// The tags of a repository in a tree by their texts. Contracts see the finite map.
#[derive(Drop)]
pub struct TagMap {
    tree: BTreeMap<Words, TagEntry>,
}

impl Model for TagMap {
    ghost use Rattle.zot_digest.specs.ByteMap.{ByteMap, map_of};
    ghost use Rattle.zot_manifests.specs.Codes.{tags_code};
    ghost use Rattle.zot_manifests.specs.Tags.{AreTags};
    ghost use Rattle.zot_model.specs.State.{StoredTag};

    ghost Value = { ByteMap StoredTag };

    ghost coded = { tags_code };

    ghost view = { λ m. map_of m.tree.entries };

    ghost invariant = { λ m. AreTags (map_of m.tree.entries) };
}

impl TagMap {
    /// No tags. Takes no memory.
    pub fn new(alloc: Global) -> Self
        ensures { result ≡ finite.empty }
    {
        TagMap {
            tree: BTreeMap::new(alloc),
        }
    }

    /// Whether there are none.
    pub fn is_empty(&self) -> bool
        ensures { IsTrue result ↔ (self.now ≡ finite.empty) }
    {
        self.tree.is_empty()
    }

    /// The tags in a tree.
    pub fn tree(&self) -> &BTreeMap<Words, TagEntry>
        ensures value { map_of result.now.entries ≡ self.now }
        ensures tags { AreTags (map_of result.now.entries) }
    {
        &self.tree
    }

    /// What is kept of a tag.
    pub fn get(&self, tag: &Tag) -> Option<&TagEntry>
        ensures { option_copied result ≡ finite.get self.now tag.now }
    {
        self.tree.get(tag.words())
    }

    /// Sets a tag. After an `Err`, which comes only where there was none, the tags are as they were.
    pub fn set(&mut self, tag: Tag, entry: TagEntry) -> Result<(), AllocError>
        ensures ok { OnOk result (self.new ≡ finite.insert self.old tag entry) }
        ensures err { OnErr result (self.new ≡ self.old) }
        ensures absent { OnErr result (finite.get self.old tag ≡ None) }
    {
        self.tree.insert(tag.into_words(), entry)?;
        Ok(())
    }

    /// Sets a tag that is there. Takes no memory.
    pub fn replace(&mut self, tag: &Tag, entry: TagEntry)
        requires { IsTrue (finite.contains_key self.old tag.now) }
        ensures { self.new ≡ finite.insert self.old tag.now entry }
    {
        match self.tree.get_mut(tag.words()) {
            Some(old) => *old = entry,
            None => unreachable!(),
        }
    }

    /// Removes a tag, and answers whether there was one; else nothing changes.
    pub fn remove(&mut self, tag: &Tag) -> bool
        ensures was { result ≡ finite.contains_key self.old tag.now }
        ensures removed { self.new ≡ finite.remove self.old tag.now }
        ensures stays { result ≡ false → self.new ≡ self.old }
    {
        self.tree.remove(tag.words()).is_some()
    }

    /// Removes those of these texts that are tags of a manifest.
    pub fn remove_each(&mut self, texts: &BTreeSet<Words>, digest: &Digest)
        ensures { (asked : List ℕ) → finite.get self.new asked ≡ kept_unless (contains byte_cmp texts.now asked) digest.now (finite.get self.old asked) }
    {
        for text in texts {
            self.remove_from(text, digest);
        }
    }

    /// Removes the tags of a manifest, by a look at all tags.
    pub fn remove_of(&mut self, digest: &Digest)
        ensures { self.new ≡ without_tags_of self.old digest.now }
    {
        self.tree.retain(|_, entry| entry.digest() != *digest);
    }

    // The same of one text.
    fn remove_from(&mut self, text: &Words, digest: &Digest)
        ensures { (asked : List ℕ) → finite.get self.new asked ≡ kept_unless (is_at (byte_cmp asked) text.now) digest.now (finite.get self.old asked) }
    {
        if self.is_set_to(text, digest) {
            let _ = self.tree.remove(text);
        }
    }

    /// Whether a text is a tag of a manifest.
    pub fn is_set_to(&self, text: &Words, digest: &Digest) -> bool
        ensures { result ≡ is_tag_of digest.now (finite.get self.now text.now) }
    {
        match self.tree.get(text) {
            Some(entry) => entry.digest() == *digest,
            None => false,
        }
    }

    /// Counts a pull of a tag at the moment, where there is such a tag.
    pub fn pull(&mut self, tag: &Tag, moment: u64)
        ensures { self.new ≡ with_pull moment self.old tag.now (finite.get self.old tag.now) }
    {
        let Some(entry) = self.tree.get_mut(tag.words()) else {
            return;
        };
        entry.pull(moment);
    }

    /// The page of at most n tags after a text, found from the place of that text in the tree. It fails only where memory runs out.
    pub fn page_after(
        &self,
        alloc: Global,
        n: Option<u64>,
        last: Option<&str>,
    ) -> Result<Page, AllocError>
        ensures tags { IfOk result (λ found. found.tags ≡ (page self.now n (option_map (λ text. text.now) last.entry)).tags) }
        ensures next { IfOk result (λ found. found.next ≡ (page self.now n (option_map (λ text. text.now) last.entry)).next) }
    {
        let after = after(alloc, last)?;
        let mut rest = self.tree.range((after, Bound::Unbounded));
        let most = n.unwrap_or(u64::MAX);
        let tags = first_tags(alloc, &mut rest, most)?;
        let more = rest.next().is_some();
        page_with(alloc, tags, more)
    }
}

// Where a range begins that has what comes after a text.
fn after(alloc: Global, last: Option<&str>) -> Result<Bound<Words>, AllocError>
    ensures { IfOk result (λ bound. bound ≡ after (option_map (λ text. text.now) last.entry)) }
{
    match last {
        Some(text) => {
            let text = String::from_str(alloc, text)?;
            Ok(Bound::Excluded(Words::new(text)))
        }
        None => Ok(Bound::Unbounded),
    }
}

// The tags of the first entries, at most so many of them.
fn first_tags(
    alloc: Global,
    rest: &mut Range<'_, Words, TagEntry>,
    most: u64,
) -> Result<Vec<Tag>, AllocError>
    requires { AllByRecursion (λ entry. IsTag entry.0) rest.now }
    ensures tags { IfOk result (λ tags. tags.items ≡ take most (map (λ entry. entry.0) rest.old)) }
    ensures rest { OnOk result (rest.new ≡ drop most rest.old) }
{
    let mut tags = Vec::new(alloc);
    for _ in 0..most {
        let Some(entry) = rest.next() else {
            return Ok(tags);
        };
        tags.push(copy_tag(alloc, entry.0)?)?;
    }
    Ok(tags)
}

// A page of these tags, the last of which is where the next page goes on if more follow.
fn page_with(alloc: Global, tags: Vec<Tag>, more: bool) -> Result<Page, AllocError>
    ensures tags { IfOk result (λ page. page.tags ≡ tags.items) }
    ensures next { IfOk result (λ page. page.next ≡ if more then last_of tags.items else None) }
{
    let next = if more {
        last_tag(alloc, tags.as_slice())?
    } else {
        None
    };
    Ok(Page {
        tags: TagList::new(tags),
        next,
    })
}

// A copy of the last of these tags.
fn last_tag(alloc: Global, tags: &[Tag]) -> Result<Option<Tag>, AllocError>
    ensures { IfOk result (λ tag. tag ≡ last_of tags.now) }
{
    match tags.last() {
        Some(tag) => Ok(Some(tag.copy(alloc)?)),
        None => Ok(None),
    }
}

// The tag of a text that is one.
fn copy_tag(alloc: Global, text: &Words) -> Result<Tag, AllocError>
    requires { IsTag text.now }
    ensures { IfOk result (λ tag. tag ≡ text.now) }
{
    Ok(Tag::new(text.copy(alloc)?.into_string()))
}
