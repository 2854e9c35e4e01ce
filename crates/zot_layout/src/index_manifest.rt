//! A manifest that an index lists.
ghost use Rattle.std.specs.Prelude.{◌≡◌};

use std::marker::Model;
use zot_digest::Digest;
use zot_media::Media;

/// A manifest that an index lists.
#[derive(Clone, Copy)]
pub struct IndexManifest {
    /// Its digest.
    pub digest: Digest,
    /// Its media.
    pub media: Media,
    /// How many bytes it has, by its descriptor.
    pub size: u64,
    /// The moment at which it arrived, in seconds.
    pub arrived: u64,
}

/// Manifests in the order of their digests. Contracts see the list.
#[derive(Drop)]
pub struct IndexManifestList {
    items: Vec<IndexManifest>,
}

impl Model for IndexManifestList {
    ghost use Rattle.std.specs.Prelude.{List};
    ghost use Rattle.zot_layout.specs.declared.index_manifest.IndexManifest.{IndexManifest};

    ghost Value = { List IndexManifest };

    ghost view = { λ l. l.items.items };
}

impl IndexManifestList {
    /// The manifests of a vector, which is not copied.
    pub fn new(items: Vec<IndexManifest>) -> Self
        ensures { result ≡ items.items }
    {
        IndexManifestList { items }
    }

    /// The manifests.
    pub fn as_slice(&self) -> &[IndexManifest]
        ensures { result.now ≡ self.now }
    {
        self.items.as_slice()
    }

    /// The manifests as a vector. Takes no memory.
    pub fn into_vec(self) -> Vec<IndexManifest>
        ensures { result.items ≡ self }
    {
        self.items
    }
}
