//! What a row keeps in memory of a repository: all but the bytes of its blobs.
//!
//! `Repository::new(alloc)` is a fresh one. `reserve(&digest)?` makes room for a blob, so that `fill(&digest, size, moment)` takes no
//! memory, and `settle(&digest)` lets room go that no blob took. What its manifests say is learned from their bytes, one by one:
//! `unread(alloc)?` lists those that are left, and `learn(alloc, &digest, bytes)?` reads one.
#![tactic(auto)]

mod before;
mod blob_entry;
mod blobs;
mod found_entry;
mod indexing;
mod manifests;
mod opening;
mod putting;
mod reading;
mod repository;
mod slot_map;
mod uploads;

pub use crate::before::Before;
pub use crate::blob_entry::BlobEntry;
pub use crate::found_entry::FoundEntry;
pub use crate::repository::Repository;
pub use crate::slot_map::SlotMap;
