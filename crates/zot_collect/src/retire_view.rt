//! A repository as a collection sees it.
use zot_digest::Digest;
use zot_model::ManifestRow;
use zot_retention::TagRow;

/// A repository as a collection sees it.
#[derive(Drop)]
pub struct RetireView {
    /// The tags, in byte order.
    pub tags: Vec<TagRow>,
    /// The manifests, in the order of their digests, each once.
    pub manifests: Vec<ManifestRow>,
    /// The blobs, in the order of their digests, each with the moment at which it arrived, in seconds.
    pub blobs: Vec<(Digest, u64)>,
}
