//! Shards of digests: what repositories hold under them, over a store in which equal bytes are one object and links to it.
//!
//! `DigestShard::open(part, alloc, number, dedupe)` reads what a part of the store holds. Of the shard `attach`, `mount` and `detach` change what one repository holds under a digest, `read` gives it, and `holdings` lists all; `step` makes any of these calls. `close` gives the part back.
#![tactic(auto)]

mod digests;
mod holder_laws;
mod holding;
mod holding_list;
mod laws;
mod layout_fault;
mod listing;
mod opening;
mod permit;
mod places;
mod pool_call;
mod pool_reply;
mod shard;
mod sharding;
mod stepping;
mod unopened;
mod walking;

pub use crate::holder_laws::{
    changes_are_local, holders_follow, own_entries_are_a_run, owner_decides, shards_answer_as_one,
};
pub use crate::holding::Holding;
pub use crate::holding_list::HoldingList;
pub use crate::laws::tight_means;
pub use crate::layout_fault::LayoutFault;
pub use crate::permit::Permit;
pub use crate::pool_call::PoolCall;
pub use crate::pool_reply::PoolReply;
pub use crate::shard::DigestShard;
pub use crate::sharding::{SHARDS, shard_of};
pub use crate::unopened::Unopened;
