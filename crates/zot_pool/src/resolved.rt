//! What a reference at an upstream stands for.
use zot_digest::Digest;
use zot_media::Media;

/// What a reference at an upstream stands for.
#[derive(Clone, Copy, Debug, PartialEq, Eq)]
pub enum Resolved {
    /// No manifest.
    Absent,
    /// A manifest of accepted media.
    Found {
        /// Its digest.
        digest: Digest,
        /// Its media.
        media: Media,
    },
    /// A manifest of other media.
    Foreign {
        /// Its digest.
        digest: Digest,
    },
}
