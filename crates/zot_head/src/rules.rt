//! What a head's fields say of its body and its connection.
ghost use Rattle.std.specs.Prelude.{◌≡◌, [], ◌∷◌, length, map, MatchOption, List, ℕ, codes};
ghost use Rattle.std.specs.Char.{to_ascii_lowercase};
ghost use Rattle.std.specs.List.{list_any};
ghost use Rattle.zot_head.specs.Fields.{values_of, length_of as length_of_value, framing_by, framing_by_length as framing_by_length_of, framing_of, is_expectation as is_expectation_of, expects_of, lists_close as lists_close_of, close_word, is_close as is_close_of, closes_of, is_word as is_word_of};
ghost use Rattle.httparse.specs.Grammar.{trim_ows};

use crate::digits::digits_value;
use crate::field::Field;
use crate::framing::Framing;
use crate::word::{is_word, trim};

/// The most digits of a length.
const MAX_DIGITS: usize = 18;

/// How many fields of that name there are.
fn count_named(fields: &[Field], name: &[u8]) -> usize
    requires { map to_ascii_lowercase name.now ≡ name.now }
    ensures { result ≡ length (values_of name.now fields.now) }
{
    let mut count = 0;
    for field in fields {
        if is_word(name, field.name.as_str().as_bytes()) {
            count += 1;
        }
    }
    count
}

/// The value of the first field of that name, which has no capital letter; names are compared without regard to case. Takes no memory.
pub fn first_named<'a>(fields: &'a [Field], name: &[u8]) -> Option<&'a [u8]>
    requires { map to_ascii_lowercase name.now ≡ name.now }
    ensures { MatchOption result (values_of name.now fields.now ≡ [])
        (λ value. (rest : List (List ℕ)) × (values_of name.now fields.now ≡ value.now ∷ rest)) }
{
    for field in fields {
        if is_word(name, field.name.as_str().as_bytes()) {
            return Some(field.value.as_slice());
        }
    }
    None
}

/// Whether a field asks for a `100 Continue`.
#[tactic(auto, unfolding(crate::specs::Fields::is_expectation))]
fn is_expectation(field: &Field) -> bool
    ensures { result ≡ is_expectation_of field.now }
{
    is_word(b"expect", field.name.as_str().as_bytes())
        && is_word(b"100-continue", field.value.as_slice())
}

/// Whether the bytes are the word that asks to close the connection.
#[tactic(auto, unfolding(crate::specs::Fields::close_word))]
fn is_close_word(piece: &[u8]) -> bool
    ensures { result ≡ is_word_of close_word (trim_ows piece.now) }
{
    is_word(b"close", trim(piece))
}

/// Whether a value of `Connection` has `close` between two commas.
fn lists_close(value: &[u8]) -> bool
    ensures { result ≡ lists_close_of value.now }
{
    value.split(|b| *b == b',').any(is_close_word)
}

/// Whether a field asks to close the connection.
#[tactic(auto, unfolding(crate::specs::Fields::is_close))]
fn is_close(field: &Field) -> bool
    ensures { result ≡ is_close_of field.now }
{
    is_word(b"connection", field.name.as_str().as_bytes()) && lists_close(field.value.as_slice())
}

/// Whether some field asks for a `100 Continue`.
fn asks_continue(fields: &[Field]) -> bool
    ensures { result ≡ list_any is_expectation_of fields.now }
{
    fields.iter().any(is_expectation)
}

/// Whether some field asks to close the connection.
fn asks_close(fields: &[Field]) -> bool
    ensures { result ≡ list_any is_close_of fields.now }
{
    fields.iter().any(is_close)
}

/// Whether a `100 Continue` is owed before the body is read.
pub(crate) fn expects(minor: u8, fields: &[Field], framing: Framing) -> bool
    ensures { result ≡ expects_of minor fields.now framing }
{
    let has_body = match framing {
        Framing::None => false,
        Framing::Length(n) => n > 0,
        Framing::Chunked => true,
    };
    minor == 1 && has_body && asks_continue(fields)
}

/// Whether the connection closes after the request.
pub(crate) fn closes(minor: u8, fields: &[Field]) -> bool
    ensures { result ≡ closes_of minor fields.now }
{
    minor == 0 || asks_close(fields)
}

/// The number that 1 to 18 decimal digits write, or none where the bytes are no such digits. Takes no memory.
#[tactic(auto, unfolding(crate::specs::Fields::length_of))]
pub fn length_of(value: &[u8]) -> Option<u64>
    ensures { result ≡ length_of_value value.now }
{
    if value.is_empty() || value.len() > MAX_DIGITS || !value.iter().all(u8::is_ascii_digit) {
        return None;
    }
    Some(digits_value(10, value))
}

/// The framing of a body of that length.
fn framing_by_length(value: &[u8]) -> Option<Framing>
    ensures { result ≡ framing_by_length_of (length_of_value value.now) }
{
    match length_of(value) {
        Some(n) => Some(Framing::Length(n)),
        None => None,
    }
}

/// The framing of a body of that coding.
fn framing_by_coding(value: &[u8]) -> Option<Framing>
    ensures { result ≡ framing_by [] (value.now ∷ []) }
{
    if is_word(b"chunked", value) {
        Some(Framing::Chunked)
    } else {
        None
    }
}

/// How the body is framed, or none where the fields have no framing.
#[tactic(auto, unfolding(crate::specs::Fields::framing_of))]
pub(crate) fn framing(fields: &[Field]) -> Option<Framing>
    ensures { result ≡ framing_of fields.now }
{
    let lengths = count_named(fields, b"content-length");
    let codings = count_named(fields, b"transfer-encoding");
    if lengths.saturating_add(codings) > 1 {
        return None;
    }
    if let Some(value) = first_named(fields, b"content-length") {
        return framing_by_length(value);
    }
    if let Some(value) = first_named(fields, b"transfer-encoding") {
        return framing_by_coding(value);
    }
    Some(Framing::None)
}
