//! What a gate hears.

/// What is about to be done.
#[derive(Clone, Copy)]
pub enum Point {
    /// The member of this number is about to answer a request.
    Request(u32),
    /// An upstream's content is about to be read. The number is the first 8 bytes of its digest, read big-endian.
    Fetch(u64),
}
