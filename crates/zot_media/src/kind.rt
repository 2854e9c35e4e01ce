//! What a content is taken for.

/// What a content is taken for.
#[derive(Clone, Copy, Debug, PartialEq, Eq)]
pub enum Kind {
    /// A manifest, whose references are looked at.
    Manifest,
    /// A blob, whose bytes aren't looked at.
    Blob,
}
