//! A turn of one repository: what a call on it leads to, where the bytes of its blobs are held by a pool of digests.
//!
//! `start(part, alloc, &name, repo, &call, moment)` answers a call or asks the pool one thing; `resume(part, alloc, &name, repo, stage, moment, answer)` goes on with its answer. `stage.pending()` bounds how often the pool is asked from there on.
#![tactic(auto)]

mod blobs;
mod holding;
mod knowing;
mod lists;
mod manifests;
mod mounting;
mod posting;
mod reading;
mod refusing;
mod resuming;
mod stage;
mod starting;
mod storing;
mod turn;
mod uploads;

pub use crate::resuming::resume;
pub use crate::stage::{Attaching, Learning, Rest, Stage};
pub use crate::starting::start;
pub use crate::turn::Turn;
