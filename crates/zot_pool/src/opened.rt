//! Whether an upstream has a content.

/// Whether an upstream has a content that was to be opened.
#[derive(Clone, Copy, Debug, PartialEq, Eq)]
pub enum Opened {
    /// It doesn't.
    Absent,
    /// It does, and the content can be read.
    Open,
}
