//! What one repository holds under a digest.
use zot_digest::Digest;
use zot_names::RepoName;

/// What one repository holds under a digest.
#[derive(Debug, Drop)]
pub struct Holding {
    /// The repository.
    pub name: RepoName,
    /// The digest.
    pub digest: Digest,
    /// How many bytes it holds.
    pub size: u64,
}
