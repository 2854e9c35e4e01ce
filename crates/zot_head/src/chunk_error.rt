use thiserror::Error;

/// Why a body in chunks isn't read.
#[derive(Clone, Copy, Debug, PartialEq, Eq, Error)]
pub enum ChunkError {
    /// A chunk's line, or the line end after a chunk, has another form (RFC 9112, section 7.1), or a
    /// chunk's line has more than 256 bytes.
    #[error("the body's chunks have another form")]
    Bad,
    /// The trailer section has more than 16,384 bytes.
    #[error("the trailer section is too long")]
    TooLong,
    /// A chunk's size passes what the body's limit leaves.
    #[error("the body is too large")]
    TooLarge,
    /// Memory ran out.
    #[error("out of memory")]
    NoMemory,
}
