//! How much of a message is read before it is refused: numbers of this profile.

/// The most bytes that a message has through the end of its head.
pub const HEAD_LIMIT: usize = 16_384;

/// The most lines between a head's first line and its empty line.
pub const LINE_LIMIT: usize = 64;

/// The most bytes that a chunk's line has, with its CR LF.
pub const CHUNK_LINE_LIMIT: usize = 256;

/// The most bytes that a trailer section has, with its empty line.
pub const TRAILER_LIMIT: usize = 16_384;
