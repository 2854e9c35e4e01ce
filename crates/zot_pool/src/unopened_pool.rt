//! The parts of a pool that wasn't opened.
use crate::pool_open_error::PoolOpenError;

/// The parts of a pool that wasn't opened, in their order, and why. They are given back, so that their counts of faults can be seen.
#[derive(Drop)]
pub struct UnopenedPool<S> {
    /// The parts.
    pub parts: Vec<S>,
    /// Why the pool wasn't opened.
    pub error: PoolOpenError,
}
