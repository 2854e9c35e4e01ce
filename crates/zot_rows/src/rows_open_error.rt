//! Why the rows of a cluster weren't opened.
use std::alloc::AllocError;
use thiserror::Error;
use zot_digest::{Bytes, Words};

/// Why the rows of a cluster weren't opened.
#[derive(Debug, Drop, Error)]
pub enum RowsOpenError {
    /// A marker or an index of a row has no meaning: its path and its bytes.
    #[error("not a repository's index")]
    BadIndex {
        /// The object's path.
        path: Words,
        /// The object's bytes.
        text: Bytes,
    },
    /// The record of a digest is none, or a link that it names has no whole origin; or an index of a row has a moment or version that isn't one: the path and the bytes.
    #[error("not a record")]
    BadMeta {
        /// The object's path.
        path: Words,
        /// The object's bytes.
        text: Bytes,
    },
    /// A call on the part of the row with this number failed.
    #[error("storage of a row failed")]
    RowFault(u32),
    /// A call on the part of the shard with this number failed.
    #[error("storage of a shard failed")]
    ShardFault(u32),
    /// Memory ran out.
    #[error("out of memory")]
    NoMemory,
}

impl From<AllocError> for RowsOpenError {
    ghost use Rattle.std.specs.Prelude.{◌≡◌};
    ghost use Rattle.zot_rows.specs.declared.rows_open_error.RowsOpenError.TheVariants.{NoMemory};

    ghost from_gives = { λ _ e. e ≡ NoMemory };

    fn from(_: AllocError) -> RowsOpenError {
        RowsOpenError::NoMemory
    }
}
