//! A digest.
ghost use Rattle.std.specs.Prelude.{◌≡◌, ℕ, List, IfOk, slice_index, take};
ghost use Rattle.std.specs.Cmp.Lexicographic.{slice_cmp};
ghost use Rattle.std.specs.Ordering.{nat_cmp};
ghost use Rattle.std.specs.Int.{w64, from_be_bytes};
ghost use Rattle.std.specs.String.{string_bytes};
ghost use Rattle.zot_digest.specs.Digest.{IsDigest, digest_text};

use std::alloc::{AllocError, Global};
use std::marker::Model;

/// A SHA-256 value. Contracts see the list of its 32 bytes; digests are ordered as their texts.
#[derive(Clone, Copy, Debug, PartialEq, Eq, PartialOrd, Ord)]
pub struct Digest {
    bytes: [u8; 32],
}

impl Model for Digest {
    ghost use Rattle.std.specs.Prelude.{ℕ, List};

    ghost Value = { List ℕ };

    ghost view = { λ d. d.bytes };

    ghost inverse = { λ bytes. record { bytes = bytes } };
}

impl Digest {
    /// The digest of these bytes.
    pub fn from_bytes(bytes: [u8; 32]) -> Self
        ensures { result ≡ bytes }
    {
        Digest { bytes }
    }

    /// The 32 bytes.
    pub fn as_bytes(&self) -> &[u8]
        ensures value { result.now ≡ self.now }
        ensures digest { IsDigest self.now }
    {
        whole(&self.bytes)
    }

    /// The text: `sha256:` and 64 lower-case hexadecimal digits. It fails only where memory runs out.
    #[tactic(auto, unfolding(crate::specs::Digest::digest_text))]
    pub fn text(&self, alloc: Global) -> Result<String, AllocError>
        ensures { IfOk result (λ text. string_bytes text ≡ digest_text self.now) }
    {
        let mut text = String::from_str(alloc, "sha256:")?;
        let digits = hex::encode(alloc, self.bytes.as_slice())?;
        text.push_str(digits.as_str())?;
        Ok(text)
    }

    /// The first byte.
    pub fn first(&self) -> u8
        ensures { result ≡ slice_index self.now 0 }
    {
        self.bytes[0]
    }

    /// The first 8 bytes, read big-endian.
    pub fn number(&self) -> u64
        ensures { result ≡ from_be_bytes w64 (take 8 self.now) }
    {
        let b = &self.bytes;
        u64::from_be_bytes([b[0], b[1], b[2], b[3], b[4], b[5], b[6], b[7]])
    }
}

// The bytes of an array, which are a digest's.
fn whole(bytes: &[u8; 32]) -> &[u8]
    ensures value { result.now ≡ bytes.now }
    ensures digest { IsDigest bytes.now }
{
    bytes.as_slice()
}

/// The law that two digests are ordered as their texts are, byte by byte.
pub fn ordered_as_text()
    ensures { (a b : List ℕ) → IsDigest a → IsDigest b → slice_cmp nat_cmp (digest_text a) (digest_text b) ≡ slice_cmp nat_cmp a b }
{}
