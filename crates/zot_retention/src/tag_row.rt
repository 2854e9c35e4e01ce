//! Tags with their moments.
use zot_digest::Digest;
use zot_names::Tag;

/// A tag of a repository: its manifest's digest, and when it was pushed and pulled.
#[derive(Debug, Drop)]
pub struct TagRow {
    pub tag: Tag,
    pub digest: Digest,
    /// The moment of the last push.
    pub pushed: u64,
    /// How often it was pulled since then.
    pub pulls: u64,
    /// The moment of the last pull, or 0.
    pub pulled: u64,
}
