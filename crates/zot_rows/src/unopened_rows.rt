//! The parts of rows that weren't opened.
use crate::rows_open_error::RowsOpenError;

/// The parts of rows that weren't opened and those of their pool, each in their order, and why. They are given back, so that their counts of faults can be seen.
#[derive(Drop)]
pub struct UnopenedRows<S> {
    /// The rows' parts.
    pub parts: Vec<S>,
    /// The parts of the pool's shards.
    pub shards: Vec<S>,
    /// Why the rows weren't opened.
    pub error: RowsOpenError,
}
