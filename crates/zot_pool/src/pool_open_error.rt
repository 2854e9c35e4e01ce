//! Why a pool wasn't opened.
use thiserror::Error;
use zot_digest::{Bytes, Words};

/// Why a pool wasn't opened.
#[derive(Debug, Drop, Error)]
pub enum PoolOpenError {
    /// The record of a digest is none, or a link that it names has no whole origin: its path and its bytes.
    #[error("not a cache record")]
    BadMeta {
        /// The record's path.
        path: Words,
        /// The record's bytes.
        text: Bytes,
    },
    /// A call on the part with this number failed.
    #[error("storage failed")]
    Failed(u32),
    /// Memory ran out.
    #[error("out of memory")]
    NoMemory,
}
