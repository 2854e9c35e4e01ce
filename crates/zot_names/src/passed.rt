//! Where the pieces before a glob's next `**` lead.

/// Where the pieces before a glob's next `**` lead in a text.
#[derive(Clone, Copy)]
pub enum Passed<'a> {
    /// To the end of both.
    Whole,
    /// To the `**`, after which these are left of the glob and of the text.
    Across(&'a [u8], &'a [u8]),
    /// Nowhere: the glob doesn't match the text.
    Failed,
}
