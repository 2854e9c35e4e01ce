//! A store in memory that notes the calls that are made of it, for cases.
//!
//! `NotingStore::new(alloc, objects, failing, true)?` is one of these objects, whose calls of the numbers in `failing` fail; `notes()` has a note for each call.
#![tactic(auto)]

mod noting_store;

pub use crate::noting_store::NotingStore;
