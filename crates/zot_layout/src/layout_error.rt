//! Why a layout wasn't read.
use std::alloc::{AllocError, AllocFailed};
use thiserror::Error;
use zot_digest::{Bytes, Words};

/// Why a layout wasn't read.
#[derive(Debug, Drop, Error)]
pub enum LayoutError {
    /// The object at this path has these bytes, which are no index or marker.
    #[error("not an index")]
    BadIndex {
        /// The path of the object.
        path: Words,
        /// Its bytes.
        text: Bytes,
    },
    /// The object at this path has these bytes, an index with a moment or version that isn't one.
    #[error("not the times of an index")]
    BadMeta {
        /// The path of the object.
        path: Words,
        /// Its bytes.
        text: Bytes,
    },
    /// A call of the store failed.
    #[error("storage failed")]
    Failed,
    /// Memory ran out.
    #[error("out of memory")]
    NoMemory,
}

impl From<AllocError> for LayoutError {
    ghost use Rattle.std.specs.Prelude.{◌≡◌};
    ghost use Rattle.zot_layout.specs.declared.layout_error.LayoutError.TheVariants.{NoMemory};

    ghost from_gives = { λ _ e. e ≡ NoMemory };

    fn from(_: AllocError) -> LayoutError {
        LayoutError::NoMemory
    }
}

impl<T: Drop> From<AllocFailed<T>> for LayoutError {
    ghost use Rattle.std.specs.Prelude.{◌≡◌};
    ghost use Rattle.zot_layout.specs.declared.layout_error.LayoutError.TheVariants.{NoMemory};

    ghost from_gives = { λ _ e. e ≡ NoMemory };

    fn from(_: AllocFailed<T>) -> LayoutError {
        LayoutError::NoMemory
    }
}
