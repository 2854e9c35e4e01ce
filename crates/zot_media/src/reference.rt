//! How a request refers to a manifest.
use zot_digest::Digest;
use zot_names::Tag;

/// How a request refers to a manifest (OCI Distribution Specification 1.1, "Pulling manifests").
#[derive(Debug, Drop, PartialEq, Eq)]
pub enum Reference {
    /// By a tag.
    Tag(Tag),
    /// By its digest.
    Digest(Digest),
}
