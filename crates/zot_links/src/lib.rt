//! The contents of digests in a store: what each repository holds under a digest, where equal bytes are one object and links to it.
//!
//! `attach(part, alloc, digest, links, dedupe, name, bytes)` sets what a repository holds under a digest, and `release` removes it; `contents` and `size` look at it. `read_record(alloc, bytes)` gives the lines of the record that says which objects are links. `open_links(part, alloc, digest, found)` gives the holders that a digest's objects stand for, by the repositories that have one.
#![tactic(auto)]

mod aim;
mod attaching;
mod form;
mod held;
mod holding;
mod laws;
mod linking;
mod links;
mod links_error;
mod opening;
mod orders;
mod part;
mod paths;
mod reading;
mod record;
mod record_error;
mod record_line;
mod releasing;

pub use crate::attaching::attach;
pub use crate::form::Form;
pub use crate::held::{contents, size};
pub use crate::laws::{
    held_elsewhere, object_calls_are_local, record_calls_are_local, what_stands_means,
};
pub use crate::links::{Links, Tree};
pub use crate::links_error::LinksError;
pub use crate::opening::open_links;
pub use crate::paths::record_path;
pub use crate::reading::read_record;
pub use crate::record::record_text;
pub use crate::record_error::RecordError;
pub use crate::record_line::RecordLine;
pub use crate::releasing::release;
