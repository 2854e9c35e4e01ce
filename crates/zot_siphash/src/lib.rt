//! Which member of a cluster owns a repository, and in which of its rows it lies: SipHash-2-4 of the repository's name,
//! under the cluster's key. No call takes memory.
//!
//! `siphash24(&key, b"library/alpine")` is the hash, `owner_of(&key, b"library/alpine", 2)` the owner of two members.
#![tactic(auto)]

mod hash;
mod owner;
mod state;

pub use crate::hash::siphash24;
pub use crate::owner::{owner_of, owner_of_hash, owners_and_rows, row_of, row_of_hash};
