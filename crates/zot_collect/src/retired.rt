//! What goes from a repository.
use zot_digest::Digest;
use zot_names::Tag;

/// The tags and the manifests that go from a repository, in the order of its own.
#[derive(Debug, Drop)]
pub struct Retired {
    pub tags: Vec<Tag>,
    pub manifests: Vec<Digest>,
}
