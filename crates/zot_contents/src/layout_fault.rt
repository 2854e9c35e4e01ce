//! Why a shard of digests wasn't opened.
use std::alloc::{AllocError, AllocFailed};
use thiserror::Error;
use zot_digest::{Bytes, Words};

/// Why a shard of digests wasn't opened.
#[derive(Debug, Drop, Error)]
pub enum LayoutFault {
    /// The record of a digest is none, or a link that it names has no whole origin: its path and its bytes.
    #[error("not a cache record")]
    BadMeta {
        /// The record's path.
        path: Words,
        /// The record's bytes.
        text: Bytes,
    },
    /// The store failed.
    #[error("storage failed")]
    Failed,
    /// Memory ran out.
    #[error("out of memory")]
    NoMemory,
}

impl From<AllocError> for LayoutFault {
    ghost use Rattle.std.specs.Prelude.{◌≡◌};
    ghost use Rattle.zot_contents.specs.declared.layout_fault.LayoutFault.TheVariants.{NoMemory};

    ghost from_gives = { λ _ e. e ≡ NoMemory };

    fn from(_: AllocError) -> LayoutFault {
        LayoutFault::NoMemory
    }
}

impl<T: Drop> From<AllocFailed<T>> for LayoutFault {
    ghost use Rattle.std.specs.Prelude.{◌≡◌};
    ghost use Rattle.zot_contents.specs.declared.layout_fault.LayoutFault.TheVariants.{NoMemory};

    ghost from_gives = { λ _ e. e ≡ NoMemory };

    fn from(_: AllocFailed<T>) -> LayoutFault {
        LayoutFault::NoMemory
    }
}
