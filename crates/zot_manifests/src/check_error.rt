//! Why a manifest may not be put.
use std::alloc::AllocError;
use thiserror::Error;
use zot_digest::Digest;

/// Why a manifest may not be put. Where several fit, the first of these comes.
#[derive(Clone, Copy, Debug, PartialEq, Eq, Error)]
pub enum CheckError {
    /// Its media aren't accepted.
    #[error("media not accepted")]
    Media,
    /// Its bytes aren't a manifest of the media.
    #[error("not a manifest")]
    Unread,
    /// It has this digest, and the reference is another one.
    #[error("another digest")]
    Digest(Digest),
    /// It needs the blob of this digest, which isn't there.
    #[error("missing blob")]
    Missing(Digest),
    /// Memory ran out.
    #[error("out of memory")]
    NoMemory,
}

impl From<AllocError> for CheckError {
    ghost use Rattle.std.specs.Prelude.{◌≡◌};
    ghost use Rattle.zot_manifests.specs.declared.check_error.CheckError.TheVariants.{NoMemory};

    ghost from_gives = { λ _ e. e ≡ NoMemory };

    fn from(_: AllocError) -> CheckError {
        CheckError::NoMemory
    }
}
