//! What a listener answers.

/// What a listener found.
#[derive(Drop)]
pub enum Accepted<C, K> {
    /// A connection: the number of its member, and its two ends.
    Stream(u32, C, K),
    /// Nothing was waiting.
    Quiet,
}
