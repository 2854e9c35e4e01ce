//! From the head of a message and its body to the one request that it asks, or to the one refusal.
//!
//! `route(alloc, &ParsedHead::new(&head), body)` gives `Routed::Request` for a `GET` of `/v2/a/blobs/DIGEST`, and
//! `Routed::Refused` where DIGEST is no digest. `ParsedHead::hides_body` says whether the reply shows no body.
#![tactic(auto)]

mod calls;
mod decoded_text;
mod form;
mod laws;
mod lines;
mod manifest;
mod message;
mod method;
mod name;
mod pairs;
mod parsed_head;
mod path;
mod reading;
mod reference;
mod routed;
mod stop;
mod target;

pub use crate::decoded_text::DecodedText;
pub use crate::form::Form;
pub use crate::laws::{outcome_is_one, outcomes_are_sound, path_is_one};
pub use crate::message::route;
pub use crate::parsed_head::ParsedHead;
pub use crate::path::Path;
pub use crate::routed::Routed;
pub use crate::target::Target;
