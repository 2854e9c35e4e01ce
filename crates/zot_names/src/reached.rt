//! Where the bytes at a glob's front lead.

/// Where the bytes at a glob's front lead in a text.
#[derive(Clone, Copy)]
pub enum Reached<'a> {
    /// To the end of both.
    Whole,
    /// To a `*`, after which these are left of the glob and of the text.
    Within(&'a [u8], &'a [u8]),
    /// To a `**`, after which these are left.
    Across(&'a [u8], &'a [u8]),
    /// Nowhere: the glob doesn't match the text.
    Failed,
}
