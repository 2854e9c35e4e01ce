//! What is kept of a blob.

/// What is kept of a blob that a repository holds. Its bytes lie in a shard of digests.
#[derive(Clone, Copy, Debug)]
pub struct BlobEntry {
    /// How many bytes it has.
    pub size: u64,
    /// The moment at which it arrived, in seconds.
    pub arrived: u64,
    /// Whether its bytes may say something else than what is kept of the manifest under its digest.
    pub unread: bool,
}
