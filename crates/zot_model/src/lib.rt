//! The requests and replies of a registry, its codes and limits, and, as definitions, what a plain sequential registry
//! answers and which histories are legal.
//!
//! `fits(&request, &reply)` says whether a request may be answered so: `Reply::blob_unknown()` fits a GET of a blob, and no
//! POST. What must be answered is `plain` in `specs/Plain.antt`, and what a run of answers may be is `Run` in
//! `specs/History.antt`.
#![tactic(auto)]

mod call;
mod code;
mod code_row;
mod copies;
mod detail;
mod finding;
mod fitting;
mod laws;
mod limits;
mod manifest_row;
mod methods;
mod mount;
mod refusals;
mod reply;
mod request;
mod row;
mod span;
mod values;

pub use crate::call::Call;
pub use crate::code::Code;
pub use crate::detail::Detail;
pub use crate::finding::Finding;
pub use crate::fitting::fits;
pub use crate::laws::{
    answers_fit, common_refusals_fit, faults_rise_where_said, manifest_comes_back,
    needed_blobs_stay, pages_are_the_list, repositories_stand_alone,
};
pub use crate::limits::{BODY_LIMIT, LAST_ID, MANIFEST_LIMIT, OPEN_LIMIT, UPLOAD_LIMIT};
pub use crate::manifest_row::ManifestRow;
pub use crate::methods::Methods;
pub use crate::mount::Mount;
pub use crate::reply::Reply;
pub use crate::request::Request;
pub use crate::row::{RowCall, RowReply};
pub use crate::span::Span;
pub use crate::values::{has_values, real_values};
