//! The stores of a cluster.

/// The stores of a cluster: a store part for each row of repositories, and one for each shard of digests. No part of a path or of a message is meant.
#[derive(Drop)]
pub struct Parts<S> {
    /// The parts of the rows, by their numbers.
    pub rows: Vec<S>,
    /// The parts of the shards, by their numbers.
    pub shards: Vec<S>,
}
