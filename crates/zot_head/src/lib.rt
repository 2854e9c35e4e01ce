//! Heads and bodies of HTTP/1.1 requests, in this registry's profile of RFC 9112: where a message's head ends, what it
//! says of its body and its connection, and bodies in chunks, read piece by piece.
//!
//! `find_head(b"GET /v2/ HTTP/1.1\r\n\r\n..")` gives `Found::Head(21)`, and `read_head` of these 21 bytes a `Head` with the
//! method `GET`, the target `/v2/` and `Framing::None`.
#![tactic(auto)]

mod after;
mod chunk_error;
mod chunk_line;
mod chunks;
mod digits;
mod fed;
mod field;
mod field_list;
mod found;
mod framing;
mod head;
mod head_error;
mod laws;
mod limits;
mod lines;
mod pending;
mod read;
mod rules;
mod stage;
mod word;

pub use crate::chunk_error::ChunkError;
pub use crate::chunks::Chunks;
pub use crate::fed::Fed;
pub use crate::field::Field;
pub use crate::field_list::FieldList;
pub use crate::found::{Found, find_head};
pub use crate::framing::Framing;
pub use crate::head::Head;
pub use crate::head_error::HeadError;
pub use crate::laws::{
    front_is_one, front_stays, head_ends_alone, head_ends_as_read, message_takes,
    only_sent_is_read, refused_for_its_bytes, sent_is_read,
};
pub use crate::limits::{CHUNK_LINE_LIMIT, HEAD_LIMIT, LINE_LIMIT, TRAILER_LIMIT};
pub use crate::read::read_head;
pub use crate::rules::{first_named, length_of};
