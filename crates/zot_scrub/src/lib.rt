//! What a scrub finds wrong in a repository.
//!
//! `scrub_repo(rt, alloc, contents, manifests)` hashes the repository's blobs in as many threads as there are processors, and
//! gives the damaged blobs, then what the manifests lack. It reads what it is given and changes nothing.
#![tactic(auto)]

mod damaged;
mod digest_set;
mod lacking;
mod missing;
mod scrubbing;

pub use crate::scrubbing::scrub_repo;
pub use zot_model::Finding;
