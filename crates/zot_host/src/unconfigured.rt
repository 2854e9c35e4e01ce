//! Why there is no configuration.
use thiserror::Error;
use zot_digest::Words;

/// Why there is no configuration.
#[derive(Debug, Drop, Error)]
pub enum Unconfigured {
    /// The file isn't there.
    #[error("the file isn't there")]
    Missing,
    /// The host failed, and its count of faults rose.
    #[error("the host failed")]
    Failed,
    /// The first wrong field by its whole path, and the text found there.
    #[error("a wrong field")]
    Wrong { field: Words, found: Words },
    /// Memory ran out.
    #[error("out of memory")]
    NoMemory,
}
