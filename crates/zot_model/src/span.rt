//! A range of an upload's bytes.

/// The places of an upload's bytes that a body has, counted from 0 (OCI Distribution Specification, "Pushing a blob in chunks").
#[derive(Clone, Copy, Debug, PartialEq, Eq)]
pub struct Span {
    /// The place of the first byte.
    pub start: u64,
    /// The place of the last byte.
    pub end: u64,
}
