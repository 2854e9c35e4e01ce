//! Delivery: what one member sends is what another reads. The bytes of a request are a message, and what it asks is the
//! request.
//!
//! `carry(alloc, &request, true)` gives the request that the member reads to which this one is handed on: the same, with its
//! hop. The laws `request_is_read` and `request_is_one` hold for every valid request, whatever the length of its head.
#![tactic(auto)]

mod carrying;
mod laws;

pub use crate::carrying::carry;
pub use crate::laws::{request_is_one, request_is_read};
