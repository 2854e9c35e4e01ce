//! The index and the marker of a repository's image layout, read and written, and the repositories of a row.
//!
//! `index_text(alloc, &state)` is the text of `index.json` for what a repository has of manifests and tags, and
//! `read_index(alloc, path, bytes, moment)` is exactly what such bytes mean, also as other tools write them.
//! `open_row(alloc, &mut part, row, members, &key, moment)` gives the repositories of a row that a store holds.
//! `put_index`, `make_known` and `forget` write what a row has of one repository.
#![tactic(auto)]

mod descriptors;
mod groups;
mod index_manifest;
mod index_state;
mod index_tag;
mod laws;
mod layout_error;
mod listed;
mod listing;
mod marker;
mod moment;
mod notes;
mod opening;
mod parts;
mod paths;
mod reading;
mod repository;
mod sorting;
mod text;
mod walking;
mod writing;
mod written_laws;

pub use crate::index_manifest::{IndexManifest, IndexManifestList};
pub use crate::index_state::IndexState;
pub use crate::index_tag::{IndexTag, IndexTagList};
pub use crate::laws::{
    a_marker_makes_known, a_path_is_of_one_repository, a_write_is_of_one_repository,
    an_index_is_the_state, other_paths_leave_a_repository, what_is_read_is_an_index,
    what_is_stored_elsewhere_leaves_it, without_a_marker_it_is_fresh,
};
pub use crate::layout_error::LayoutError;
pub use crate::marker::{marker_text, read_marker};
pub use crate::opening::open_row;
pub use crate::reading::read_index;
pub use crate::repository::{empty_index, read_layout};
pub use crate::text::index_text;
pub use crate::writing::{forget, make_known, put_index};
pub use crate::written_laws::{
    a_layout_lies_at_two_paths, a_marker_tells_what_is_known, the_later_write_counts,
    the_own_marker_is_read, what_is_not_stored_leaves_the_row, what_is_written_is_the_rows,
};
