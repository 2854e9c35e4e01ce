//! What a refusal says beside its code.
use crate::methods::Methods;
use zot_digest::Digest;
use zot_names::UploadId;

/// What a refusal says beside its code.
#[derive(Clone, Copy, Debug, PartialEq, Eq)]
pub enum Detail {
    /// Nothing.
    None,
    /// The digest of what is missing or unreadable.
    Missing(Digest),
    /// The digest that was wanted, and the one that was found.
    Differ(Digest, Digest),
    /// The upload, and how many bytes it has.
    Session(UploadId, u64),
    /// The methods that the path has.
    Allow(Methods),
}
