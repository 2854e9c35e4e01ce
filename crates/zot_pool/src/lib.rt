//! The sixteen shards of digests under one value, and the contract of an upstream.
//!
//! `MemoryUpstream::empty()` is an upstream that holds nothing.
#![tactic(auto)]

mod answers;
mod memory_upstream;
mod opened;
mod opening;
mod pool;
mod pool_error;
mod pool_open_error;
mod resolved;
mod room;
mod unopened_pool;
mod up_error;
mod upstream;

pub use crate::memory_upstream::MemoryUpstream;
pub use crate::opened::Opened;
pub use crate::pool::Pool;
pub use crate::pool_error::PoolError;
pub use crate::pool_open_error::PoolOpenError;
pub use crate::resolved::Resolved;
pub use crate::room::{put_first, put_last};
pub use crate::unopened_pool::UnopenedPool;
pub use crate::up_error::UpError;
pub use crate::upstream::Upstream;
