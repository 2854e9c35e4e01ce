//! Replies of a registry read back from their bytes on the wire, for members that ask each other.
//!
//! `read_reply(alloc, &request, bytes)` gives the reply to the request that the bytes spell, and `ReadReplyError::Bad`
//! exactly where they spell none. Of a blob's reply to `GET /v2/a/blobs/sha256:..` it gives the digest that
//! `Docker-Content-Digest` names, and a copy of the body.
//!
//! The bytes are split once. A candidate is made for the call's success, and for each code with the status that was read;
//! a value that isn't there is replaced by another one. The candidate that is spelled so is the reply.
#![tactic(auto)]

mod confirming;
mod cutting;
mod details;
mod laws;
mod pages;
mod read_reply_error;
mod refusals;
mod replying;
mod successes;
mod values;

pub use crate::laws::{alike_itself, only_alike_replies};
pub use crate::read_reply_error::ReadReplyError;
pub use crate::replying::read_reply;
