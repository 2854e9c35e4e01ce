//! How the replies of a registry and its requests are spelled on the wire, byte by byte as `specs/Spelling.antt` and
//! `specs/Wire.antt` define it. `split_reply` takes a reply's bytes apart again.
//!
//! `spell_reply(alloc, Some(&request), &Reply::BlobMade { digest }, false, true)` gives `HTTP/1.1 201 Created`, the fields
//! `Location`, `Docker-Content-Digest`, `Content-Length` and `Connection`, and an empty line. To write a blob without a copy
//! of it, write `spell_front(..)` and then `held_body(..)`.
#![tactic(auto)]

mod bodies;
mod cutting;
mod field;
mod field_name;
mod fields;
mod laws;
mod query;
mod reply;
mod request;
mod split;
mod status;
mod texts;

pub use crate::bodies::page_body;
pub use crate::cutting::{after, cut};
pub use crate::field::{Field, value_in};
pub use crate::field_name::FieldName;
pub use crate::laws::{alike_replies, reply_head_then_body};
pub use crate::reply::{
    held_body, is_reply, join_head, name_of, spell_front, spell_head, spell_reply,
};
pub use crate::request::{
    body_of, head_and_body, head_then_body, spell_request, spell_request_head,
};
pub use crate::split::{SplitReply, split_reply};
