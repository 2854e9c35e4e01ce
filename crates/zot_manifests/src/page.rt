//! A page of tags.
use zot_names::{Tag, TagList};

/// A page of a repository's tags (OCI Distribution Specification, "Listing Tags").
#[derive(Drop)]
pub struct Page {
    /// The tags, in byte order.
    pub tags: TagList,
    /// The last of them, where more follow.
    pub next: Option<Tag>,
}
