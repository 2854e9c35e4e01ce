//! Sources, sinks, stores and a clock in memory. They tell all that they hold, and fail exactly the calls whose numbers they are given.
//!
//! `MemoryStore::new(alloc, objects, failing)?` is a store of these objects, which fails the calls whose numbers, from 1, stand in `failing`.
#![tactic(auto)]

mod calls;
mod hand_clock;
mod laws;
mod memory_sink;
mod memory_source;
mod memory_store;
mod object_map;
mod owners;
mod splitting;
mod steady_source;
mod steady_store;

pub use crate::hand_clock::HandClock;
pub use crate::laws::empty_list_fails_none;
pub use crate::memory_sink::MemorySink;
pub use crate::memory_source::MemorySource;
pub use crate::memory_store::MemoryStore;
pub use crate::splitting::split_parts;
pub use crate::steady_source::SteadySource;
pub use crate::steady_store::SteadyStore;
