//! What a manifest that was put changed.
use zot_manifests::Replaced;

/// What a manifest that was put changed in a repository's table, by which it is taken back.
#[derive(Drop)]
pub struct Before {
    /// The manifest and the tag that it replaced.
    pub replaced: Replaced,
    /// Whether the bytes under its digest were still to be read.
    pub unread: bool,
}
