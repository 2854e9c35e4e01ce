//! The upload sessions of one repository: each call answers by the first case that fits, as a finite map of uploads would.
//!
//! `uploads.begin(alloc, moment)` opens an upload and gives its id, `uploads.append(id, None, b"abc")` adds bytes to it and
//! gives its length.
#![tactic(auto)]

mod laws;
mod upload;
mod upload_error;
mod upload_map;
mod uploads;

pub use crate::laws::{few_are_open, one_answer, others_stay};
pub use crate::upload_error::UploadError;
pub use crate::uploads::Uploads;
