//! Reading a head.
ghost use Rattle.std.specs.Prelude.{◌≡◌, ◌≢◌, ◌↔◌, [], length, map, IsTrue, IsUtf8, IfOk, All};
ghost use Rattle.httparse.specs.Grammar.{RequestHead, ReadsRequest};
ghost use Rattle.httparse.specs.Spans.{span_bytes, IsWithin, IsHeaderWithin, IsRequestWithin, IsRequestAt};
ghost use Rattle.zot_head.specs.Front.{field_of as field_of_line, IsCrowded, IsHead, IsNoHead, IsHeadOf};
ghost use Rattle.zot_head.specs.Fields.{framing_of};
ghost use Rattle.zot_head.specs.Spans.{field_at, HasTexts};

use crate::field::Field;
use crate::field_list::FieldList;
use crate::head::Head;
use crate::head_error::HeadError;
use crate::limits::LINE_LIMIT;
use crate::lines::{head_end, lines_in};
use crate::rules::{closes, expects, framing};
use httparse::Status;
use httparse::spans::{EMPTY_HEADER_SPAN, HeaderSpan, RequestSpans, Span, parse_request};
use std::alloc::{AllocError, Global};
use std::str;
use zot_digest::{Bytes, Words};

/// Whether a head has more lines than are allowed.
fn is_crowded(bytes: &[u8]) -> bool
    ensures { IsTrue result ↔ IsCrowded bytes.now }
{
    match head_end(bytes) {
        Some(n) => lines_in(&bytes[..n]) > LINE_LIMIT + 2,
        None => false,
    }
}

/// The text at a span.
fn words_at(alloc: Global, bytes: &[u8], span: Span) -> Result<Words, AllocError>
    requires within { IsWithin (length bytes.now) span }
    requires text { IsUtf8 (span_bytes bytes.now span) }
    ensures { IfOk result (λ words. words ≡ span_bytes bytes.now span) }
{
    let Ok(text) = str::from_utf8(span.of(bytes)) else {
        unreachable!()
    };
    Ok(Words::new(String::from_str(alloc, text)?))
}

/// The field at its spans.
fn field_of(alloc: Global, bytes: &[u8], span: &HeaderSpan) -> Result<Field, AllocError>
    requires within { IsHeaderWithin (length bytes.now) span.now }
    requires text { IsUtf8 (span_bytes bytes.now span.now.name) }
    ensures { IfOk result (λ field. field ≡ field_at bytes.now span.now) }
{
    let name = words_at(alloc, bytes, span.name)?;
    let value = Vec::from_slice(alloc, span.value.of(bytes))?;
    Ok(Field {
        name,
        value: Bytes::new(value),
    })
}

/// The fields at their spans.
fn fields_of(alloc: Global, bytes: &[u8], spans: &[HeaderSpan]) -> Result<FieldList, AllocError>
    requires { All (HasTexts bytes.now) spans.now }
    ensures { IfOk result (λ fields. fields ≡ map (field_at bytes.now) spans.now) }
{
    let mut fields = Vec::new(alloc);
    for span in spans {
        fields.push(field_of(alloc, bytes, span)?)?;
    }
    Ok(FieldList::new(fields))
}

/// The head whose parts stand at these spans.
fn head_of(
    alloc: Global,
    bytes: &[u8],
    request: &RequestSpans,
    spans: &[HeaderSpan],
) -> Result<Head, HeadError>
    requires within { IsRequestWithin bytes.now spans.now request.now }
    requires reads { (h : RequestHead) × IsRequestAt bytes.now spans.now request.now h }
    ensures head { IfOk result (λ head. (h : RequestHead)
        × IsRequestAt bytes.now spans.now request.now h × IsHeadOf h head) }
    ensures bad { result ≡ Err HeadError.Bad → (h : RequestHead)
        × IsRequestAt bytes.now spans.now request.now h
        × (framing_of (map field_of_line h.fields) ≡ None) }
    ensures few { result ≢ Err HeadError.TooLong }
{
    let method = words_at(alloc, bytes, request.method)?;
    let target = words_at(alloc, bytes, request.path)?;
    let fields = fields_of(alloc, bytes, &spans[..request.headers])?;
    let Some(framing) = framing(fields.as_slice()) else {
        return Err(HeadError::Bad);
    };
    let expects = expects(request.version, fields.as_slice(), framing);
    let closes = closes(request.version, fields.as_slice());
    Ok(Head {
        method,
        target,
        fields,
        framing,
        expects,
        closes,
    })
}

/// Reads the head of a request, which is all of these bytes (RFC 9112, sections 2 to 6), as `httparse`
/// does. `TooLong` comes before `Bad`, and memory can only run out over what is read as a request.
/// Departing from RFC 9112, section 3.2, `Host` isn't looked at.
pub fn read_head(alloc: Global, bytes: &[u8]) -> Result<Head, HeadError>
    ensures head { IfOk result (IsHead bytes.now) }
    ensures bad { result ≡ Err HeadError.Bad → IsNoHead bytes.now }
    ensures too_long { (result ≡ Err HeadError.TooLong) ↔ IsCrowded bytes.now }
    ensures no_memory { result ≡ Err HeadError.NoMemory
        → (h : RequestHead) × ReadsRequest bytes.now h [] }
{
    if is_crowded(bytes) {
        return Err(HeadError::TooLong);
    }
    let mut spans = [EMPTY_HEADER_SPAN; LINE_LIMIT];
    match parse_request(bytes, &mut spans) {
        Ok(Status::Complete(request)) => {
            if request.len < bytes.len() {
                return Err(HeadError::Bad);
            }
            head_of(alloc, bytes, &request, &spans)
        }
        Ok(Status::Partial) => Err(HeadError::Bad),
        Err(_) => Err(HeadError::Bad),
    }
}
