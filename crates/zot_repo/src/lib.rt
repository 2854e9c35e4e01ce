//! A row of repositories: which of them a call is on, what is kept of each, and the turns of the call.
//!
//! `RowCore` is the row without a pool: `start(alloc, &call, moment)` answers a call or asks the pool one thing, and `resume(alloc, answer)` goes on with its answer. `pending()` bounds how often the pool is asked from there on.
//!
//! `RowCore::open` and `RepoShard::open` open a row over its part of the store, with what is held for its repositories.
//!
//! `RepoShard` is the row with a pool: `step(pool, alloc, &call, moment)` answers a call.
#![tactic(auto)]

mod answering;
mod asking;
mod beginning;
mod driving;
mod laws;
mod opening;
mod repos;
mod row_config;
mod row_core;
mod row_next;
mod shard;
mod turned;
mod unopened_row;
mod waiting;

pub use crate::laws::other_rows_stay;
pub use crate::repos::Repos;
pub use crate::row_config::RowConfig;
pub use crate::row_core::RowCore;
pub use crate::row_next::RowNext;
pub use crate::shard::RepoShard;
pub use crate::unopened_row::UnopenedRow;
pub use crate::waiting::Waiting;
