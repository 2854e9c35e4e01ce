//! What is kept under a digest and under a tag while an index is read.
use zot_digest::Digest;
use zot_media::Media;

/// What is kept of a manifest, under its digest.
#[derive(Clone, Copy)]
pub struct ManifestPart {
    /// Its media.
    pub media: Media,
    /// How many bytes it has.
    pub size: u64,
    /// The moment at which it arrived.
    pub arrived: u64,
}

/// What is kept of a tag, under its text.
#[derive(Clone, Copy)]
pub struct TagPart {
    /// The digest of its manifest.
    pub digest: Digest,
    /// The moment at which it was pushed.
    pub pushed: u64,
}
