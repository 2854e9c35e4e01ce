use crate::chunk_error::ChunkError;

/// How much of a trailer line has come.
#[derive(Clone, Copy)]
pub(crate) enum LineSoFar {
    /// Nothing.
    Start,
    /// A CR alone.
    Return,
    /// Bytes of a line that isn't empty.
    Inside,
}

/// Where in a body in chunks the next byte stands.
#[derive(Clone, Copy)]
pub(crate) enum Stage {
    /// In a chunk's line.
    Line,
    /// In a chunk, of which so many bytes are still to come.
    Bytes(u64),
    /// In the CR LF after a chunk, of which this byte has come.
    Tail(Option<u8>),
    /// In the trailer section, which may have so many bytes more.
    Trailer(LineSoFar, usize),
    /// After the body.
    Done,
    /// After an error.
    Failed(ChunkError),
}
