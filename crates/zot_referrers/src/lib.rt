//! The lists of a repository's referrers: the manifests that say something of another one.
//!
//! `index.add(alloc, &digest, &reading)?` lists a manifest under its subject, and
//! `index.text(alloc, &manifests, &held, &subject, None)?` is the image index of all that have this subject.
#![tactic(auto)]

mod looking;
mod subject_index;
mod text;

pub use crate::looking::text_of_all;
pub use crate::subject_index::SubjectIndex;
