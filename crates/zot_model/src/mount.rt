//! A blob to be taken over from another repository.
use zot_digest::Digest;
use zot_names::RepoName;

/// A blob to be taken over from another repository (OCI Distribution Specification, "Mounting a blob from another repository").
#[derive(Debug, Drop, PartialEq, Eq)]
pub struct Mount {
    /// The blob's digest.
    pub digest: Digest,
    /// The repository that may have it.
    pub from: Option<RepoName>,
}
