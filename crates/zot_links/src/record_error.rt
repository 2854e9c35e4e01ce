//! Why a cache record wasn't read.
use std::alloc::{AllocError, AllocFailed};
use thiserror::Error;

/// Why a cache record wasn't read.
#[derive(Clone, Copy, Debug, PartialEq, Eq, Error)]
pub enum RecordError {
    /// The bytes aren't lines in their form and order.
    #[error("not a cache record")]
    Bad,
    /// Memory ran out.
    #[error("out of memory")]
    NoMemory,
}

impl From<AllocError> for RecordError {
    ghost use Rattle.std.specs.Prelude.{◌≡◌};
    ghost use Rattle.zot_links.specs.declared.record_error.RecordError.TheVariants.{NoMemory};

    ghost from_gives = { λ _ e. e ≡ NoMemory };

    fn from(_: AllocError) -> RecordError {
        RecordError::NoMemory
    }
}

impl<T: Drop> From<AllocFailed<T>> for RecordError {
    ghost use Rattle.std.specs.Prelude.{◌≡◌};
    ghost use Rattle.zot_links.specs.declared.record_error.RecordError.TheVariants.{NoMemory};

    ghost from_gives = { λ _ e. e ≡ NoMemory };

    fn from(_: AllocFailed<T>) -> RecordError {
        RecordError::NoMemory
    }
}
