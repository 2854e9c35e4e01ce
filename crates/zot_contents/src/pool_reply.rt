//! Answers of a shard of digests.
use crate::holding_list::HoldingList;
use zot_digest::Bytes;

/// What a shard of digests answers to a call.
#[derive(Debug, Drop)]
pub enum PoolReply {
    /// The repository holds the bytes.
    Done,
    /// All that is held.
    Held(HoldingList),
    /// The repository holds what the other one does, of so many bytes.
    Size(u64),
    /// The bytes that are held.
    Content(Bytes),
    /// Nothing is held that was asked for.
    Nothing,
    /// The repository holds nothing; whether it did before.
    Removed(bool),
    /// The store failed.
    Failed,
    /// Memory ran out.
    NoMemory,
}
