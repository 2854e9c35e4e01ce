//! A manifest that may be put.
use zot_digest::Digest;
use zot_media::{Media, Reading};
use zot_names::Tag;

/// A manifest that may be put: its bytes were read, and what it needs is there.
#[derive(Drop)]
pub struct Checked {
    /// The digest of its bytes.
    pub digest: Digest,
    pub media: Media,
    /// The tag that is set to it, if there is one.
    pub tag: Option<Tag>,
    /// What it says.
    pub reading: Reading,
    /// How many bytes it has.
    pub size: u64,
}
