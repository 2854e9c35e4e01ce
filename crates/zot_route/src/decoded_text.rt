//! A text of a target, decoded.
ghost use Rattle.std.specs.Prelude.{◌≡◌, IfOk, IsUtf8, MatchOption};
ghost use Rattle.std.specs.Cow.{cow_str_bytes};
ghost use Rattle.std.specs.String.{string_bytes};
ghost use Rattle.percent_encoding.specs.Percent.{percent_decode};

use percent_encoding::{DecodeError, percent_decode};
use std::alloc::{AllocError, Global};
use std::borrow::CowStr;
use std::marker::Model;

/// A text of a target, decoded; where there was nothing to decode, it isn't copied. Contracts see the list of its bytes.
#[derive(Drop)]
pub struct DecodedText<'a> {
    text: CowStr<'a>,
}

impl<'a> Model for DecodedText<'a> {
    ghost use Rattle.std.specs.Prelude.{ℕ, List};
    ghost use Rattle.std.specs.Cow.{cow_str_bytes};

    ghost Value = { List ℕ };

    ghost view = { λ p. cow_str_bytes p.text };
}

impl<'a> DecodedText<'a> {
    /// A text that is decoded.
    pub fn new(text: CowStr<'a>) -> Self
        ensures { result ≡ cow_str_bytes text.entry }
    {
        DecodedText { text }
    }

    /// The segment of a path that these bytes stand for, with its escapes decoded once (RFC 3986, section 2.1); none where it isn't UTF-8. It fails only where memory does.
    pub fn read(alloc: Global, bytes: &'a [u8]) -> Result<Option<DecodedText<'a>>, AllocError>
        ensures { IfOk result (λ segment. MatchOption segment (¬ IsUtf8 (percent_decode bytes.now))
            (λ text. (text ≡ percent_decode bytes.now) × IsUtf8 (percent_decode bytes.now))) }
    {
        match percent_decode(bytes).decode_utf8(alloc) {
            Ok(text) => Ok(Some(DecodedText { text })),
            Err(DecodeError::Utf8(_)) => Ok(None),
            Err(DecodeError::OutOfMemory) => Err(AllocError),
        }
    }

    /// The text.
    pub fn as_str(&self) -> &str
        ensures { result.now ≡ self.now }
    {
        self.text.as_str()
    }

    /// The text as a string; a borrowed one is copied. It fails only where memory does.
    pub fn into_string(self, alloc: Global) -> Result<String, AllocError>
        ensures { IfOk result (λ string. string_bytes string ≡ self.entry) }
    {
        self.text.into_owned(alloc)
    }
}
