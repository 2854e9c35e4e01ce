//! Calls on a shard of digests.
use zot_digest::{Bytes, Digest};
use zot_names::RepoName;

/// A call on a shard of digests.
#[derive(Debug, Drop)]
pub enum PoolCall {
    /// What all repositories hold under the shard's digests.
    Holdings,
    /// A repository is to hold these bytes under a digest.
    Attach(RepoName, Digest, Bytes),
    /// A repository is to hold what another one holds under a digest, if that is sound.
    Mount(RepoName, RepoName, Digest),
    /// The bytes that a repository holds under a digest.
    Read(RepoName, Digest),
    /// A repository is to hold nothing under a digest.
    Detach(RepoName, Digest),
}
