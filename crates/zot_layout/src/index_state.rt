//! What an index holds.
use crate::index_manifest::IndexManifestList;
use crate::index_tag::IndexTagList;

/// What an index holds of a repository.
#[derive(Drop)]
pub struct IndexState {
    /// The manifests, in the order of their digests.
    pub manifests: IndexManifestList,
    /// The tags, in byte order.
    pub tags: IndexTagList,
}
