//! Requests as they stand on the wire.
ghost use Rattle.std.specs.Prelude.{◌≡◌, ℕ, ◌++◌, List, [], ◌∷◌, OnOk, IfOk, IsSome, length, option_map, string_bytes};
ghost use Rattle.std.specs.Fmt.{decimal};
ghost use Rattle.std.specs.Option.{option_copied};
ghost use Rattle.zot_model.specs.declared.request.Request.{Request as ARequest};
ghost use Rattle.zot_spell.specs.Wire.{body_of, fields_given, fields_of, form_of, head_of, hop_value, id_text, parts_of, query_text, reference_text, request_bytes, request_head, request_line, span_text, target_text, with_body, with_hop};

use crate::field::{Field, add_field, add_length, push_fields};
use crate::field_name::FieldName;
use crate::query::form_of;
use crate::reply::name_of;
use crate::texts::prefixed;
use std::alloc::{AllocError, Global};
use zot_media::Reference;
use zot_model::{Call, Request, Span};
use zot_names::UploadId;

/// The head of a request, from one member to another, before a body of so many bytes where its method has one (RFC 9112, sections 2 to 6). Whether it was handed on is said by `hop`, and not by the request. It fails only where memory does.
#[tactic(auto, unfolding(crate::specs::Wire::request_head, crate::specs::Wire::request_line, crate::specs::Wire::target_text))]
pub fn spell_request_head(
    alloc: Global,
    request: &Request,
    hop: bool,
    size: u64,
) -> Result<Vec<u8>, AllocError>
    ensures { IfOk result (λ bytes. bytes.items ≡ request_head (with_hop request.now hop) size) }
{
    let mut out = request_line(alloc, request)?.into_bytes();
    let fields = fields_of(alloc, request, hop, size)?;
    push_fields(&mut out, fields.as_slice())?;
    Ok(out)
}

/// The bytes of a request: its head and its body. It fails only where memory does.
#[tactic(auto, unfolding(crate::specs::Wire::request_bytes))]
pub fn spell_request(alloc: Global, request: &Request) -> Result<Vec<u8>, AllocError>
    ensures { IfOk result (λ bytes. bytes.items ≡ request_bytes request.now) }
{
    let body = body_of(request);
    let mut out = spell_request_head(alloc, request, request.hop, body.len() as u64)?;
    out.extend_from_slice(body)?;
    Ok(out)
}

/// The body of a request, or no bytes where its method has none. Takes no memory.
#[tactic(auto, unfolding(crate::specs::Wire::body_of))]
pub fn body_of(request: &Request) -> &[u8]
    ensures { result.now ≡ body_of request.now }
{
    match body_in(&request.call) {
        Some(body) => body,
        None => b"".as_slice(),
    }
}

/// The head and the body of a request's bytes. Takes no memory.
#[tactic(auto, unfolding(crate::specs::Wire::request_bytes))]
pub fn head_and_body<'a>(request: &Request, bytes: &'a [u8]) -> (&'a [u8], &'a [u8])
    requires { bytes.now ≡ request_bytes request.now }
    ensures head { result.0.now ≡ head_of request.now }
    ensures body { result.1.now ≡ body_of request.now }
{
    bytes.split_at(bytes.len() - body_of(request).len())
}

/// The law that the head of a request before so many bytes, and then as many bytes, are the bytes of the request with that body, where its method has one.
pub fn head_then_body()
    ensures { (request : ARequest) (body : List ℕ) → IsSome (parts_of request.call).body
        → request_bytes (with_body request body) ≡ request_head request (length body) ++ body }
{}

// The first line.
fn request_line(alloc: Global, request: &Request) -> Result<String, AllocError>
    ensures { IfOk result (λ line. string_bytes line ≡ request_line request.now) }
{
    let name = name_of(Some(request));
    let method = method_of(&request.call);
    let path = path_of(alloc, &request.call)?;
    let query = query_of(alloc, &request.call)?;
    [
        method,
        " /v2/",
        name,
        path.as_str(),
        query.as_str(),
        " HTTP/1.1\r\n",
    ]
    .concat(alloc)
}

// The method of a call.
#[tactic(auto, unfolding(crate::specs::Wire::parts_of))]
fn method_of(call: &Call) -> &str
    ensures { result.now ≡ (parts_of call.now).method }
{
    match call {
        Call::HeadBlob(_) | Call::HeadManifest(_) => "HEAD",
        Call::DeleteBlob(_) | Call::DeleteManifest(_) => "DELETE",
        Call::Post { .. } => "POST",
        Call::Patch { .. } => "PATCH",
        Call::Finish { .. } | Call::PutManifest { .. } => "PUT",
        _ => "GET",
    }
}

// What stands after the name in a call's path.
#[tactic(auto, unfolding(crate::specs::Wire::parts_of))]
fn path_of(alloc: Global, call: &Call) -> Result<String, AllocError>
    ensures { IfOk result (λ path. string_bytes path ≡ (parts_of call.now).path) }
{
    match call {
        Call::Base => Ok(String::new(alloc)),
        Call::GetBlob(digest) | Call::HeadBlob(digest) | Call::DeleteBlob(digest) => {
            prefixed(alloc, "/blobs/", digest.text(alloc)?)
        }
        Call::Post { .. } => String::from_str(alloc, "/blobs/uploads/"),
        Call::Patch { id, .. } | Call::Finish { id, .. } | Call::UploadState { id } => {
            prefixed(alloc, "/blobs/uploads/", id_text(alloc, id)?)
        }
        Call::PutManifest { reference, .. }
        | Call::GetManifest(reference)
        | Call::HeadManifest(reference)
        | Call::DeleteManifest(reference) => {
            prefixed(alloc, "/manifests/", reference_text(alloc, reference)?)
        }
        Call::Tags { .. } => String::from_str(alloc, "/tags/list"),
        Call::Referrers { digest, .. } => prefixed(alloc, "/referrers/", digest.text(alloc)?),
    }
}

// The text of an id.
#[tactic(auto, unfolding(crate::specs::Wire::id_text))]
fn id_text(alloc: Global, id: &Option<UploadId>) -> Result<String, AllocError>
    ensures { IfOk result (λ text. string_bytes text ≡ id_text id.now) }
{
    match id {
        Some(id) => id.text(alloc),
        None => String::from_str(alloc, "-"),
    }
}

// The text of a reference.
#[tactic(auto, unfolding(crate::specs::Wire::reference_text))]
fn reference_text(alloc: Global, reference: &Reference) -> Result<String, AllocError>
    ensures { IfOk result (λ text. string_bytes text ≡ reference_text reference.now) }
{
    match reference {
        Reference::Tag(tag) => String::from_str(alloc, tag.as_str()),
        Reference::Digest(digest) => digest.text(alloc),
    }
}

// The query of a call after its `?`, where there is one.
#[tactic(auto, unfolding(crate::specs::Wire::query_text))]
fn query_of(alloc: Global, call: &Call) -> Result<String, AllocError>
    ensures { IfOk result (λ query. string_bytes query ≡ query_text (form_of (parts_of call.now))) }
{
    let form = form_of(alloc, call)?;
    if form.is_empty() {
        Ok(form)
    } else {
        prefixed(alloc, "?", form)
    }
}

// The fields, before a body of so many bytes.
fn fields_of(
    alloc: Global,
    request: &Request,
    hop: bool,
    size: u64,
) -> Result<Vec<Field>, AllocError>
    ensures { IfOk result (λ fields. fields.items ≡ fields_given (fields_of (with_hop request.now hop) size)) }
{
    let mut fields = Vec::new(alloc);
    add_some(alloc, &mut fields, FieldName::Host, Some("member"))?;
    add_some(
        alloc,
        &mut fields,
        FieldName::ContentType,
        media_in(&request.call),
    )?;
    add_span(alloc, &mut fields, range_in(&request.call))?;
    add_some(alloc, &mut fields, FieldName::HopCount, hop_text(hop))?;
    add_size(alloc, &mut fields, body_in(&request.call), size)?;
    Ok(fields)
}

// Adds a field, where it has a value.
fn add_some(
    alloc: Global,
    fields: &mut Vec<Field>,
    name: FieldName,
    value: Option<&str>,
) -> Result<(), AllocError>
    ensures { OnOk result (fields.new.items ≡ fields.old.items ++ fields_given ((name, option_copied value.entry) ∷ [])) }
{
    match value {
        Some(value) => add_field(alloc, fields, name, value),
        None => Ok(()),
    }
}

// The media of a pushed manifest, or `-` where they aren't known.
#[tactic(auto, unfolding(crate::specs::Wire::parts_of, crate::specs::Wire::media_value))]
fn media_in(call: &Call) -> Option<&'static str>
    ensures { option_copied result ≡ (parts_of call.now).media }
{
    match call {
        Call::PutManifest { media, .. } => match media {
            Some(media) => Some(media.text()),
            None => Some("-"),
        },
        _ => None,
    }
}

// The range of a body in an upload.
#[tactic(auto, unfolding(crate::specs::Wire::parts_of))]
fn range_in(call: &Call) -> Option<Span>
    ensures { result ≡ (parts_of call.now).range }
{
    match call {
        Call::Patch { range, .. } | Call::Finish { range, .. } => *range,
        _ => None,
    }
}

// Adds the field of a range, where there is one.
fn add_span(alloc: Global, fields: &mut Vec<Field>, span: Option<Span>) -> Result<(), AllocError>
    ensures { OnOk result (fields.new.items ≡ fields.old.items ++ fields_given ((FieldName.ContentRange, option_map span_text span) ∷ [])) }
{
    match span {
        Some(span) => {
            let start = span.start.to_string(alloc)?;
            let end = span.end.to_string(alloc)?;
            let text = [start.as_str(), "-", end.as_str()].concat(alloc)?;
            add_field(alloc, fields, FieldName::ContentRange, text.as_str())
        }
        None => Ok(()),
    }
}

// What the field of a request that was handed on says.
fn hop_text(hop: bool) -> Option<&'static str>
    ensures { option_copied result ≡ hop_value hop }
{
    if hop { Some("1") } else { None }
}

// The body of a call whose method has one.
#[tactic(auto, unfolding(crate::specs::Wire::parts_of))]
fn body_in(call: &Call) -> Option<&[u8]>
    ensures { option_copied result ≡ (parts_of call.now).body }
{
    match call {
        Call::Post { body, .. }
        | Call::Patch { body, .. }
        | Call::Finish { body, .. }
        | Call::PutManifest { body, .. } => Some(body.as_slice()),
        _ => None,
    }
}

// Adds the field of a body's size, where there is a body.
#[tactic(auto, unfolding(crate::specs::Heads::length_field_of))]
fn add_size(
    alloc: Global,
    fields: &mut Vec<Field>,
    body: Option<&[u8]>,
    size: u64,
) -> Result<(), AllocError>
    ensures { OnOk result (fields.new.items ≡ fields.old.items
        ++ fields_given ((FieldName.ContentLength, option_map (λ body. decimal size) (option_copied body.entry)) ∷ [])) }
{
    match body {
        Some(_) => add_length(alloc, fields, size),
        None => Ok(()),
    }
}
