//! SHA-256 digests and their texts, and small owned lists of bytes and texts, which contracts see as lists.
//!
//! `parse_digest(text)` gives the digest whose text `sha256:..` this is, and `BadDigest` exactly where it is none.
//! `digest_of(bytes)` is the SHA-256 value of the bytes.
#![tactic(auto)]

mod bytes;
mod hasher;
mod reading;
mod value;
mod words;

pub use crate::bytes::Bytes;
pub use crate::hasher::{Hasher, digest_of};
pub use crate::reading::{BadDigest, parse_digest, read_digest};
pub use crate::value::{Digest, ordered_as_text};
pub use crate::words::Words;
