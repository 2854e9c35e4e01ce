//! Manifests with their moments and what they say.
use zot_digest::Digest;
use zot_media::{Media, Reading};

/// A manifest of a repository: its digest, its media, when it arrived, and what it says.
#[derive(Drop)]
pub struct ManifestRow {
    pub digest: Digest,
    pub media: Media,
    /// The moment at which it arrived, in seconds.
    pub arrived: u64,
    pub reading: Reading,
}
