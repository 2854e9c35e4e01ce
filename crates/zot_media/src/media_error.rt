//! Why a manifest wasn't read.
use std::alloc::{AllocError, AllocFailed};
use thiserror::Error;

/// Why a manifest wasn't read.
#[derive(Clone, Copy, Debug, PartialEq, Eq, Error)]
pub enum MediaError {
    /// The bytes are no manifest of the media.
    #[error("not a manifest of these media")]
    Bad,
    /// Memory ran out.
    #[error("out of memory")]
    NoMemory,
}

impl From<AllocError> for MediaError {
    ghost use Rattle.std.specs.Prelude.{◌≡◌};
    ghost use Rattle.zot_media.specs.declared.media_error.MediaError.TheVariants.{NoMemory};

    ghost from_gives = { λ _ e. e ≡ NoMemory };

    fn from(_: AllocError) -> MediaError {
        MediaError::NoMemory
    }
}

impl<T: Drop> From<AllocFailed<T>> for MediaError {
    ghost use Rattle.std.specs.Prelude.{◌≡◌};
    ghost use Rattle.zot_media.specs.declared.media_error.MediaError.TheVariants.{NoMemory};

    ghost from_gives = { λ _ e. e ≡ NoMemory };

    fn from(_: AllocFailed<T>) -> MediaError {
        MediaError::NoMemory
    }
}
