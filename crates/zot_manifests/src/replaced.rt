//! What a manifest that was put replaced.
use crate::kept::Kept;
use crate::tag_entry::TagEntry;
use zot_digest::Digest;
use zot_names::Tag;

/// What a manifest that was put replaced, by which it is taken back.
#[derive(Drop)]
pub struct Replaced {
    /// The digest under which it was put.
    pub digest: Digest,
    /// The manifest that was there.
    pub manifest: Option<Kept>,
    /// The tag that was set to it, if there is one.
    pub tag: Option<Tag>,
    /// What was kept of that tag.
    pub entry: Option<TagEntry>,
}
