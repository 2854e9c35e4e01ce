//! What a scrub finds wrong.
use zot_digest::Digest;

/// What a scrub finds wrong in a repository.
#[derive(Clone, Copy, Debug, PartialEq, Eq)]
pub enum Finding {
    /// A blob whose bytes don't have its digest.
    Damaged(Digest),
    /// A manifest, and the digest of a blob that it needs and that isn't there: its own bytes, its config, or a layer that isn't external.
    Missing { manifest: Digest, digest: Digest },
}
