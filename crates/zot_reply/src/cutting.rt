//! What stands at a place of some bytes. Where it doesn't stand there, something else is given: a reply that is made of it isn't confirmed.
ghost use Rattle.std.specs.Prelude.{◌≡◌, ◌++◌, ◌∷◌, ℕ, List, length, IsUtf8};
ghost use Rattle.std.specs.Fmt.{decimal};
ghost use Rattle.zot_digest.specs.Digest.{IsDigest, digest_text};
ghost use Rattle.zot_model.specs.Values.{IsWord};
ghost use Rattle.zot_spell.specs.Heads.{IsFree};

use std::str;
use zot_digest::{Digest, read_digest};
use zot_spell::cut;

/// How many bytes the text of a digest has.
pub const DIGEST_LENGTH: usize = 71;

/// What stands after so many bytes. Takes no memory.
pub fn skip(bytes: &[u8], count: usize) -> &[u8]
    ensures { (front rest : List ℕ) → length front ≡ count → bytes.now ≡ front ++ rest → result.now ≡ rest }
{
    if bytes.len() < count {
        b"".as_slice()
    } else {
        bytes.split_at(count).1
    }
}

/// What stands after so many bytes, a text and so many more. Takes no memory.
pub fn skip_text<'a>(bytes: &'a [u8], before: usize, text: &str, after: usize) -> &'a [u8]
    ensures { (front back rest : List ℕ) → length front ≡ before → length back ≡ after → bytes.now ≡ front ++ (text.now ++ (back ++ rest)) → result.now ≡ rest }
{
    skip(skip(skip(bytes, before), text.len()), after)
}

/// What stands before the first byte that is the end. Takes no memory.
pub fn up_to(bytes: &[u8], end: u8) -> &[u8]
    ensures { (text rest : List ℕ) → IsFree end text → bytes.now ≡ text ++ (end ∷ rest) → result.now ≡ text }
{
    match cut(bytes, end) {
        Some(parts) => parts.0,
        None => bytes,
    }
}

/// What stands after the first byte that is the end. Takes no memory.
pub fn after_first(bytes: &[u8], end: u8) -> &[u8]
    ensures { (text rest : List ℕ) → IsFree end text → bytes.now ≡ text ++ (end ∷ rest) → result.now ≡ rest }
{
    match cut(bytes, end) {
        Some(parts) => parts.1,
        None => bytes,
    }
}

/// The digest whose text stands first. Takes no memory.
pub fn first_digest(bytes: &[u8]) -> Digest
    ensures { (digest rest : List ℕ) → IsDigest digest → bytes.now ≡ digest_text digest ++ rest → digest ≡ result }
{
    if bytes.len() < DIGEST_LENGTH {
        return Digest::from_bytes([0; 32]);
    }
    digest_of(bytes.split_at(DIGEST_LENGTH).0)
}

/// The digest whose text this is. Takes no memory.
pub fn digest_of(text: &[u8]) -> Digest
    ensures { (digest : List ℕ) → IsDigest digest → text.now ≡ digest_text digest → digest ≡ result }
{
    match read_digest(text) {
        Ok(digest) => digest,
        Err(_) => Digest::from_bytes([0; 32]),
    }
}

/// The number whose decimal digits these bytes are. Takes no memory.
pub fn number_of(text: &[u8]) -> u64
    ensures { (n : ℕ) → IsWord n → text.now ≡ decimal n → n ≡ result }
{
    text_of(text).parse::<u64>().unwrap_or(0)
}

/// The text that these bytes are. Takes no memory.
pub fn text_of(bytes: &[u8]) -> &str
    ensures { IsUtf8 bytes.now → result.now ≡ bytes.now }
{
    match str::from_utf8(bytes) {
        Ok(text) => text,
        Err(_) => "",
    }
}
