//! What a repository is among the holders of a digest.

/// What a repository is among the holders of a digest.
#[derive(Clone, Copy)]
pub enum Form {
    /// No holder.
    Absent,
    /// A holder whose object is whole.
    Whole,
    /// A holder by a link.
    Link,
}
