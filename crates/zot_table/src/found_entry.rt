//! A manifest that a reference finds.
use zot_digest::Digest;
use zot_media::Media;

/// A manifest that a reference finds. Its bytes lie in a shard of digests.
#[derive(Clone, Copy)]
pub struct FoundEntry {
    pub digest: Digest,
    pub media: Media,
    /// How many bytes it has.
    pub size: u64,
}
