//! A folder of the system as a store.
//!
//! Each object is a file below it, at its path: `FolderStore::new(rt, alloc, "/srv/registry")?.put(alloc, "a/index.json", bytes)?` writes one.
#![tactic(auto)]

mod answers;
mod disk;
mod entries;
mod files;
mod folder_store;
mod folders;
mod fresh;
mod listing;
mod paths;
mod reading;
mod spot;
mod tree;
mod walk;
mod writing;

pub use crate::answers::{found, present};
pub use crate::disk::Disk;
pub use crate::folder_store::FolderStore;
pub use crate::tree::{Content, Kind, Tree};
