//! Why a call on an upload was refused.
use std::alloc::AllocError;
use thiserror::Error;
use zot_digest::Digest;

/// Why a call on an upload was refused. Where several fit, the first of these comes.
#[derive(Clone, Copy, Debug, PartialEq, Eq, Error)]
pub enum UploadError {
    /// As many uploads are open as may be, or the last id was given.
    #[error("too many uploads")]
    Full,
    /// No upload is open under the id.
    #[error("no such upload")]
    Unknown,
    /// The range doesn't go on where the upload ends, which has so many bytes, or hasn't a place for each byte of the piece.
    #[error("not the next range")]
    Range(u64),
    /// The upload would have more bytes than it may.
    #[error("upload too large")]
    TooLarge,
    /// All bytes have this digest and not the one given.
    #[error("another digest")]
    Differ(Digest),
    /// Memory ran out; nothing else is wrong.
    #[error("out of memory")]
    NoMemory,
}

impl From<AllocError> for UploadError {
    ghost use Rattle.std.specs.Prelude.{◌≡◌};
    ghost use Rattle.zot_uploads.specs.declared.upload_error.UploadError.TheVariants.{NoMemory};

    ghost from_gives = { λ _ e. e ≡ NoMemory };

    fn from(_: AllocError) -> UploadError {
        UploadError::NoMemory
    }
}
