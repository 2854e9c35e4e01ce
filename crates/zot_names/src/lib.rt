//! Names of repositories, tags, ids of uploads, and globs over names. Each type keeps its grammar as an invariant.
//!
//! `RepoName::read(alloc, "library/alpine")` gives the name, and an error exactly where the text isn't one.
//! `glob_matches("library/*", "library/alpine")` holds.
#![tactic(auto)]

mod component;
mod components;
mod glob;
mod laws;
mod name_error;
mod passed;
mod piece;
mod reached;
mod repo_name;
mod tag;
mod tag_list;
mod upload_id;

pub use crate::glob::glob_matches;
pub use crate::laws::{bytes_of_names, bytes_of_tags, components_of_names};
pub use crate::name_error::NameError;
pub use crate::repo_name::{RepoName, is_name};
pub use crate::tag::{Tag, is_tag};
pub use crate::tag_list::TagList;
pub use crate::upload_id::UploadId;
