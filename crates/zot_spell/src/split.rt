//! Replies taken apart.
ghost use Rattle.std.specs.Prelude.{◌≡◌, ◌++◌, ◌∷◌, [], ℕ, List, Some, None, IfOk, IfSome, MatchOption};
ghost use Rattle.http.specs.StatusCode.{IsStatusCode};
ghost use Rattle.zot_spell.specs.declared.field.Field.{Field};
ghost use Rattle.zot_spell.specs.Fields.{status_line as status_line_of};
ghost use Rattle.zot_spell.specs.Heads.{AreFields, IsField, IsFree, field_line, fields_text};
ghost use Rattle.zot_spell.specs.Spelling.{head_text};

use crate::cutting::{after, cut};
use crate::field::Field;
use crate::status::status_line;
use http::StatusCode;
use std::alloc::{AllocError, Global};
use zot_digest::Bytes;

/// How many bytes stand before the digits of a status.
const BEFORE_STATUS: usize = 9;

/// A reply taken apart: its status, its fields and its body.
#[derive(Drop)]
pub struct SplitReply<'a> {
    pub status: u16,
    pub fields: Vec<Field>,
    pub body: &'a [u8],
}

/// Bytes taken apart into the head that `join_head` makes and what stands after it. Just that form is read. It fails only where memory does.
#[tactic(auto, unfolding(crate::specs::Spelling::head_text))]
pub fn split_reply(alloc: Global, bytes: &[u8]) -> Result<Option<SplitReply<'_>>, AllocError>
    ensures three { IfOk result (λ found. IfSome found (λ split. IsStatusCode split.status)) }
    ensures joined { IfOk result (λ found. IfSome found (λ split. bytes.now ≡ head_text split.status split.fields.items ++ split.body.now)) }
    ensures apart { IfOk result (λ found. (status : ℕ) (fields : List Field) (body : List ℕ) → IsStatusCode status → AreFields fields
        → bytes.now ≡ head_text status fields ++ body
        → MatchOption found ⊥ (λ split. (split.status ≡ status) × (split.fields.items ≡ fields) × (split.body.now ≡ body))) }
{
    let Some((status, rest)) = split_status(alloc, bytes)? else {
        return Ok(None);
    };
    let Some((fields, body)) = split_fields(alloc, rest)? else {
        return Ok(None);
    };
    Ok(Some(SplitReply {
        status,
        fields,
        body,
    }))
}

// The status line taken off.
fn split_status(alloc: Global, bytes: &[u8]) -> Result<Option<(u16, &[u8])>, AllocError>
    ensures three { IfOk result (λ found. IfSome found (λ parts. IsStatusCode parts.0)) }
    ensures joined { IfOk result (λ found. IfSome found (λ parts. bytes.now ≡ status_line_of parts.0 ++ parts.1.now)) }
    ensures apart { IfOk result (λ found. (status : ℕ) (rest : List ℕ) → IsStatusCode status → bytes.now ≡ status_line_of status ++ rest
        → MatchOption found ⊥ (λ parts. (parts.0 ≡ status) × (parts.1.now ≡ rest))) }
{
    let Some(status) = status_in(bytes) else {
        return Ok(None);
    };
    let line = status_line(alloc, status)?;
    match after(bytes, line.as_bytes()) {
        Some(rest) => Ok(Some((status, rest))),
        None => Ok(None),
    }
}

// The status that stands in its place.
fn status_in(bytes: &[u8]) -> Option<u16>
    ensures three { IfSome result IsStatusCode }
    ensures found { (status : ℕ) (rest : List ℕ) → IsStatusCode status → bytes.now ≡ status_line_of status ++ rest → result ≡ Some status }
{
    if bytes.len() < BEFORE_STATUS + 3 {
        return None;
    }
    let (_, rest) = bytes.split_at(BEFORE_STATUS);
    let (digits, _) = rest.split_at(3);
    match StatusCode::from_bytes(digits) {
        Ok(status) => Some(status.as_u16()),
        Err(_) => None,
    }
}

// The field lines and the empty line after them taken off.
fn split_fields(alloc: Global, bytes: &[u8]) -> Result<Option<(Vec<Field>, &[u8])>, AllocError>
    ensures joined { IfOk result (λ found. IfSome found (λ parts. bytes.now ≡ fields_text parts.0.items ++ parts.1.now)) }
    ensures apart { IfOk result (λ found. (fields : List Field) (body : List ℕ) → AreFields fields → bytes.now ≡ fields_text fields ++ body
        → MatchOption found ⊥ (λ parts. (parts.0.items ≡ fields) × (parts.1.now ≡ body))) }
{
    let mut fields = Vec::new(alloc);
    let mut left = bytes;
    while let Some((field, rest)) = split_field(alloc, left)? {
        fields.push(field)?;
        left = rest;
    }
    match after(left, b"\r\n".as_slice()) {
        Some(body) => Ok(Some((fields, body))),
        None => Ok(None),
    }
}

// The line of a field taken off.
fn split_field(alloc: Global, bytes: &[u8]) -> Result<Option<(Field, &[u8])>, AllocError>
    ensures joined { IfOk result (λ found. IfSome found (λ parts. bytes.now ≡ field_line parts.0 ++ parts.1.now)) }
    ensures apart { IfOk result (λ found. (field : Field) (rest : List ℕ) → IsField field → bytes.now ≡ field_line field ++ rest
        → MatchOption found ⊥ (λ parts. (parts.0 ≡ field) × (parts.1.now ≡ rest))) }
    ensures end { IfOk result (λ found. (rest : List ℕ) → bytes.now ≡ 13 ∷ (10 ∷ rest) → found ≡ None) }
{
    let Some((name, value, rest)) = split_line(bytes) else {
        return Ok(None);
    };
    let name = Bytes::new(Vec::from_slice(alloc, name)?);
    let value = Bytes::new(Vec::from_slice(alloc, value)?);
    Ok(Some((Field { name, value }, rest)))
}

// The name and the value of the first line, and what stands after it.
fn split_line(bytes: &[u8]) -> Option<(&[u8], &[u8], &[u8])>
    ensures joined { IfSome result (λ parts. bytes.now ≡ (parts.0.now ++ (58 ∷ (32 ∷ (parts.1.now ++ (13 ∷ (10 ∷ [])))))) ++ parts.2.now) }
    ensures apart { (name value rest : List ℕ) → IsFree 58 name → IsFree 13 name → IsFree 13 value → bytes.now ≡ (name ++ (58 ∷ (32 ∷ (value ++ (13 ∷ (10 ∷ [])))))) ++ rest
        → MatchOption result ⊥ (λ parts. (parts.0.now ≡ name) × (parts.1.now ≡ value) × (parts.2.now ≡ rest)) }
    ensures end { (rest : List ℕ) → bytes.now ≡ 13 ∷ (10 ∷ rest) → result ≡ None }
{
    let Some(line) = cut_by(bytes, b'\r', b'\n') else {
        return None;
    };
    let Some(field) = cut_by(line.0, b':', b' ') else {
        return None;
    };
    Some((field.0, field.1, line.1))
}

// The bytes before and after the first one that is the end, where the other one follows it.
fn cut_by(bytes: &[u8], end: u8, next: u8) -> Option<(&[u8], &[u8])>
    ensures joined { IfSome result (λ parts. bytes.now ≡ parts.0.now ++ (end ∷ (next ∷ parts.1.now))) }
    ensures found { (text rest : List ℕ) → IsFree end text → bytes.now ≡ text ++ (end ∷ (next ∷ rest))
        → MatchOption result ⊥ (λ parts. (parts.0.now ≡ text) × (parts.1.now ≡ rest)) }
    ensures none { IsFree end bytes.now → result ≡ None }
{
    let Some(parts) = cut(bytes, end) else {
        return None;
    };
    match after(parts.1, [next].as_slice()) {
        Some(rest) => Some((parts.0, rest)),
        None => None,
    }
}
