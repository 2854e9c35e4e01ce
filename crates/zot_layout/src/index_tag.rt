//! A tag that an index names.
ghost use Rattle.std.specs.Prelude.{◌≡◌};

use std::marker::Model;
use zot_digest::Digest;
use zot_names::Tag;

/// A tag that an index names.
#[derive(Drop)]
pub struct IndexTag {
    /// The tag.
    pub tag: Tag,
    /// The digest of its manifest.
    pub digest: Digest,
    /// The moment at which it was pushed, in seconds.
    pub pushed: u64,
}

/// Tags in byte order. Contracts see the list.
#[derive(Drop)]
pub struct IndexTagList {
    items: Vec<IndexTag>,
}

impl Model for IndexTagList {
    ghost use Rattle.std.specs.Prelude.{List};
    ghost use Rattle.zot_layout.specs.declared.index_tag.IndexTag.{IndexTag};

    ghost Value = { List IndexTag };

    ghost view = { λ l. l.items.items };
}

impl IndexTagList {
    /// The tags of a vector, which is not copied.
    pub fn new(items: Vec<IndexTag>) -> Self
        ensures { result ≡ items.items }
    {
        IndexTagList { items }
    }

    /// The tags.
    pub fn as_slice(&self) -> &[IndexTag]
        ensures { result.now ≡ self.now }
    {
        self.items.as_slice()
    }

    /// The tags as a vector. Takes no memory.
    pub fn into_vec(self) -> Vec<IndexTag>
        ensures { result.items ≡ self }
    {
        self.items
    }
}
