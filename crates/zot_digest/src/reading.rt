//! Digests read from their texts.
ghost use Rattle.std.specs.Prelude.{◌≡◌, ◌≢◌, ℕ, List, IfOk, OnErr};
ghost use Rattle.std.specs.Result.{result_ok};
ghost use Rattle.std.specs.List.{list_any};
ghost use Rattle.zot_digest.specs.Digest.{IsDigest, digest_named, digest_of_digits, digest_text, is_upper};

use crate::value::Digest;
use hex::FromHex;
use thiserror::Error;

/// The algorithm's name and a colon.
const ALGORITHM: &[u8; 7] = b"sha256:";

/// What isn't the text of a digest.
#[derive(Clone, Copy, Debug, PartialEq, Eq, Error)]
#[error("not a digest")]
pub struct BadDigest;

/// The digest whose text this is, `sha256:` and 64 lower-case hexadecimal digits. `BadDigest` comes exactly where the text isn't one. Takes no memory.
pub fn parse_digest(text: &str) -> Result<Digest, BadDigest>
    ensures named { result_ok result ≡ digest_named text.now }
    ensures read { IfOk result (λ digest. text.now ≡ digest_text digest) }
    ensures bad { OnErr result ((digest : List ℕ) → IsDigest digest → text.now ≢ digest_text digest) }
{
    read_digest(text.as_bytes())
}

/// `parse_digest` of a text that is given as bytes.
pub fn read_digest(text: &[u8]) -> Result<Digest, BadDigest>
    ensures named { result_ok result ≡ digest_named text.now }
    ensures read { IfOk result (λ digest. text.now ≡ digest_text digest) }
    ensures bad { OnErr result ((digest : List ℕ) → IsDigest digest → text.now ≢ digest_text digest) }
{
    read_named(text)
}

// The digest that the text names, by the algorithm's name and then the digits.
#[tactic(auto, unfolding(crate::specs::Digest::digest_named))]
fn read_named(text: &[u8]) -> Result<Digest, BadDigest>
    ensures { result_ok result ≡ digest_named text.now }
{
    if text.len() < ALGORITHM.len() {
        return Err(BadDigest);
    }
    let (algorithm, digits) = text.split_at(ALGORITHM.len());
    if algorithm == ALGORITHM.as_slice() {
        read_digits(digits)
    } else {
        Err(BadDigest)
    }
}

// The digest that these digits stand for.
#[tactic(auto, unfolding(crate::specs::Digest::digest_of_digits))]
fn read_digits(digits: &[u8]) -> Result<Digest, BadDigest>
    ensures { result_ok result ≡ digest_of_digits digits.now }
{
    if has_upper(digits) {
        return Err(BadDigest);
    }
    match <[u8; 32] as FromHex>::from_hex(digits) {
        Ok(bytes) => Ok(Digest::from_bytes(bytes)),
        Err(_) => Err(BadDigest),
    }
}

// Whether a letter is an upper-case one.
fn has_upper(digits: &[u8]) -> bool
    ensures { result ≡ list_any is_upper digits.now }
{
    digits.iter().any(|c| c.is_ascii_uppercase())
}
