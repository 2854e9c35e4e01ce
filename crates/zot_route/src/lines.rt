//! What a head's fields say of a request.
ghost use Rattle.std.specs.Prelude.{◌≡◌, ◌==◌, not, IfOk};
ghost use Rattle.std.specs.List.{filter};
ghost use Rattle.zot_media.specs.Media.{media_named as media_named_of};
ghost use Rattle.zot_route.specs.Lines.{AreMedia, is_hop as is_hop_of, range_of, span_of as span_of_text, type_of as type_of_value};

use std::alloc::{AllocError, Global};
use std::str;
use zot_cuts::cut;
use zot_head::{Field, first_named, length_of};
use zot_media::{Media, media_in, media_of};
use zot_model::Span;

/// The range of a body in an upload, if there is one (OCI Distribution Specification, "Pushing a blob in chunks"); nothing where the first `Content-Range` isn't two numbers of 1 to 18 digits with a `-` between them, the first one not above the second. Takes no memory.
#[tactic(auto, unfolding(crate::specs::Lines::range_of))]
pub fn range(fields: &[Field]) -> Option<Option<Span>>
    ensures { result ≡ range_of fields.now }
{
    match first_named(fields, b"content-range") {
        Some(value) => match span_of(value) {
            Some(span) => Some(Some(span)),
            None => None,
        },
        None => Some(None),
    }
}

// The range that a text writes.
#[tactic(auto, unfolding(crate::specs::Lines::span_of))]
fn span_of(text: &[u8]) -> Option<Span>
    ensures { result ≡ span_of_text text.now }
{
    let (start, end) = cut(text, b'-');
    match length_of(start) {
        Some(start) => match length_of(end) {
            Some(end) if start <= end => Some(Span { start, end }),
            Some(_) | None => None,
        },
        None => None,
    }
}

/// Whether another member handed the request on. Takes no memory.
#[tactic(auto, unfolding(crate::specs::Lines::is_hop))]
pub fn is_hop(fields: &[Field]) -> bool
    ensures { result ≡ is_hop_of fields.now }
{
    first_named(fields, b"x-zot-cluster-hop-count").is_some()
}

/// The media of a pushed manifest: those of the first `Content-Type`, without its parameters (RFC 9110, section 8.3.1) and its spaces, or those that the body names where there is none. It fails only where memory does.
#[tactic(auto, unfolding(crate::specs::Lines::AreMedia))]
pub fn media(alloc: Global, fields: &[Field], body: &[u8]) -> Result<Option<Media>, AllocError>
    ensures { IfOk result (λ media. AreMedia fields.now body.now media) }
{
    match first_named(fields, b"content-type") {
        Some(value) => {
            let text = type_of(alloc, value)?;
            Ok(media_named(text.as_slice()))
        }
        None => media_in(alloc, body),
    }
}

// A media type without its parameters and without spaces.
#[tactic(auto, unfolding(crate::specs::Lines::type_of))]
fn type_of(alloc: Global, value: &[u8]) -> Result<Vec<u8>, AllocError>
    ensures { IfOk result (λ text. text.items ≡ type_of_value value.now) }
{
    without_spaces(alloc, cut(value, b';').0)
}

// The bytes without the spaces among them.
fn without_spaces(alloc: Global, bytes: &[u8]) -> Result<Vec<u8>, AllocError>
    ensures { IfOk result (λ kept. kept.items ≡ filter (λ b. not (b == 32)) bytes.now) }
{
    let mut kept = Vec::new(alloc);
    for byte in bytes {
        if *byte != b' ' {
            kept.push(*byte)?;
        }
    }
    Ok(kept)
}

// The media whose text these bytes are.
fn media_named(bytes: &[u8]) -> Option<Media>
    ensures { result ≡ media_named_of bytes.now }
{
    match str::from_utf8(bytes) {
        Ok(text) => media_of(text),
        Err(_) => None,
    }
}
