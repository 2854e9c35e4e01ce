//! Replies as they stand on the wire.
ghost use Rattle.std.specs.Prelude.{◌≡◌, ◌++◌, ◌↔◌, length, IfOk, OnOk, IsTrue, string_bytes};
ghost use Rattle.std.specs.List.{AllPass};
ghost use Rattle.std.specs.Option.{option_copied};
ghost use Rattle.http.specs.StatusCode.{IsStatusCode};
ghost use Rattle.zot_names.specs.Name.{is_name_byte};
ghost use Rattle.zot_spell.specs.Fields.{subject_fields};
ghost use Rattle.zot_spell.specs.Spelling.{HasStatus, IsReply, MayHave, head_of, head_text, held_body, made_body, name_in, parts_of, refusal_fields, reply_bytes, reply_head, shown_body};

use crate::bodies::{error_body, page_body};
use crate::cutting::after;
use crate::field::{Field, add_field, add_type, push_fields};
use crate::field_name::FieldName;
use crate::fields::{
    add_closing, add_digest, add_filter, add_link, add_made, add_size, add_upload, methods_text,
};
use crate::status::status_line;
use std::alloc::{AllocError, Global};
use zot_digest::Digest;
use zot_media::Media;
use zot_model::{Detail, Reply, Request};

/// The bytes of a reply to a request, or to a message that asks for nothing (RFC 9112, sections 4 to 6). `head` says that the method is HEAD, whose reply has the fields of a GET's and no body, and `close` that the connection closes after the reply. It fails only where memory does.
pub fn spell_reply(
    alloc: Global,
    request: Option<&Request>,
    reply: &Reply,
    head: bool,
    close: bool,
) -> Result<Vec<u8>, AllocError>
    requires { MayHave (option_copied request) reply.now }
    ensures { IfOk result (λ bytes. bytes.items
        ≡ reply_bytes (option_copied request.entry) reply.now head close) }
{
    let mut out = spell_front(alloc, request, reply, head, close)?;
    out.extend_from_slice(held_body(head, reply))?;
    Ok(out)
}

/// The bytes of a reply up to those of `held_body`: its head, and a body of JSON, which is made of the reply. The bytes of a blob, a manifest or an index, which the reply holds, needn't be copied to be written after them. It fails only where memory does.
#[tactic(auto, using(crate::proofs::AlikeLemmas::front_and_held))]
pub fn spell_front(
    alloc: Global,
    request: Option<&Request>,
    reply: &Reply,
    head: bool,
    close: bool,
) -> Result<Vec<u8>, AllocError>
    requires fits { MayHave (option_copied request) reply.now }
    ensures { IfOk result (λ front. front.items ++ shown_body head (held_body reply.now)
        ≡ reply_bytes (option_copied request.entry) reply.now head close) }
{
    let name = name_of(request);
    let made = made_body(alloc, name, reply)?;
    let body = body_in(name, reply, made.as_str());
    let mut out = head_of(alloc, name, reply, body.len() as u64, close)?;
    out.extend_from_slice(shown_in(head, made.as_bytes()))?;
    Ok(out)
}

/// The bytes that a reply holds and that are its body: those of a blob, a manifest or an index, or none; and none where the method is HEAD. Takes no memory.
#[tactic(auto, unfolding(crate::specs::Spelling::held_body))]
pub fn held_body(head: bool, reply: &Reply) -> &[u8]
    ensures { result.now ≡ shown_body head (held_body reply.now) }
{
    match reply {
        Reply::Blob { bytes, .. } | Reply::Manifest { bytes, .. } => {
            shown_in(head, bytes.as_slice())
        }
        Reply::Referrers { text, .. } => shown_in(head, text.as_slice()),
        _ => shown_in(head, b"".as_slice()),
    }
}

/// The head of a reply: its status line, its fields and the empty line after them. The bytes of a reply are its head and then its body, which a reply to HEAD leaves out, so a blob's bytes needn't be copied. It fails only where memory does.
#[tactic(auto, using(crate::proofs::AlikeLemmas::head_alone))]
pub fn spell_head(
    alloc: Global,
    request: Option<&Request>,
    reply: &Reply,
    close: bool,
) -> Result<Vec<u8>, AllocError>
    requires { MayHave (option_copied request) reply.now }
    ensures { IfOk result (λ bytes. bytes.items ≡ reply_head (option_copied request.entry) reply.now close) }
{
    spell_front(alloc, request, reply, true, close)
}

/// Whether bytes are a reply, after which the connection closes or goes on. A blob, a manifest or an index is neither copied nor spelled. It fails only where memory does.
pub fn is_reply(
    alloc: Global,
    request: Option<&Request>,
    reply: &Reply,
    head: bool,
    bytes: &[u8],
) -> Result<bool, AllocError>
    requires { MayHave (option_copied request) reply.now }
    ensures yes { IfOk result (λ is. IsTrue is → IsReply (option_copied request.entry) reply.now head bytes.now) }
    ensures no { IfOk result (λ is. IsReply (option_copied request.entry) reply.now head bytes.now → IsTrue is) }
{
    let held = held_body(head, reply);
    let open = spell_front(alloc, request, reply, head, false)?;
    let closing = spell_front(alloc, request, reply, head, true)?;
    Ok(is_joined(bytes, open.as_slice(), held) || is_joined(bytes, closing.as_slice(), held))
}

// Whether bytes are these two, one after the other.
fn is_joined(bytes: &[u8], front: &[u8], rest: &[u8]) -> bool
    ensures { IsTrue result ↔ (bytes.now ≡ front.now ++ rest.now) }
{
    match after(bytes, front) {
        Some(last) => last == rest,
        None => false,
    }
}

/// The name of a request's repository, or no text.
pub fn name_of<'a>(request: Option<&'a Request>) -> &'a str
    ensures value { result.now ≡ name_in (option_copied request.entry) }
    ensures bytes { AllPass is_name_byte result.now }
{
    match request {
        Some(request) => match &request.name {
            Some(name) => name.as_str(),
            None => "",
        },
        None => "",
    }
}

// The head of a reply to a request on the repository of this name, with a body of this length.
#[tactic(auto, unfolding(crate::specs::Spelling::head_of, crate::specs::Spelling::all_fields))]
fn head_of(
    alloc: Global,
    name: &str,
    reply: &Reply,
    count: u64,
    close: bool,
) -> Result<Vec<u8>, AllocError>
    requires status { HasStatus name.now reply.now }
    requires size { count ≡ length (parts_of name.now reply.now).body }
    ensures { IfOk result (λ bytes. bytes.items ≡ head_of (parts_of name.now reply.now) close) }
{
    let status = reply_status(name, reply);
    let mut fields = Vec::new(alloc);
    add_own(alloc, &mut fields, name, reply)?;
    add_type(alloc, &mut fields, media_of(name, reply))?;
    add_size(alloc, &mut fields, status, size_of(name, reply, count))?;
    add_closing(alloc, &mut fields, close)?;
    join_head(alloc, status, fields.as_slice())
}

/// A head: the status line, the lines of fields, and the empty line after them. `split_reply` takes it apart.
#[tactic(auto, unfolding(crate::specs::Spelling::head_text))]
pub fn join_head(alloc: Global, status: u16, fields: &[Field]) -> Result<Vec<u8>, AllocError>
    requires { IsStatusCode status }
    ensures { IfOk result (λ bytes. bytes.items ≡ head_text status fields.now) }
{
    let mut out = status_line(alloc, status)?.into_bytes();
    push_fields(&mut out, fields)?;
    Ok(out)
}

// The status of a reply; it is the same on every repository.
#[tactic(auto, unfolding(crate::specs::Spelling::parts_of))]
fn reply_status(_name: &str, reply: &Reply) -> u16
    ensures { result ≡ (parts_of _name.now reply.now).status }
{
    match reply {
        Reply::BlobMade { .. } | Reply::ManifestMade { .. } => 201,
        Reply::Deleted => 202,
        Reply::Session { status, .. } | Reply::Refused { status, .. } => *status,
        _ => 200,
    }
}

// Adds a reply's own fields.
#[tactic(auto, unfolding(crate::specs::Spelling::parts_of, crate::specs::Fields::version_field, crate::specs::Fields::blob_place, crate::specs::Fields::manifest_place))]
fn add_own(
    alloc: Global,
    fields: &mut Vec<Field>,
    name: &str,
    reply: &Reply,
) -> Result<(), AllocError>
    ensures { OnOk result (fields.new.items ≡ fields.old.items ++ (parts_of name.now reply.now).own) }
{
    match reply {
        Reply::Base => add_field(alloc, fields, FieldName::ApiVersion, "registry/2.0"),
        Reply::Blob { digest, .. }
        | Reply::BlobHead { digest, .. }
        | Reply::Manifest { digest, .. }
        | Reply::ManifestHead { digest, .. } => {
            add_digest(alloc, fields, FieldName::ContentDigest, digest)
        }
        Reply::BlobMade { digest } => add_made(alloc, fields, name, "/blobs/", digest),
        Reply::Session { id, length, .. } => add_upload(alloc, fields, name, id, *length),
        Reply::ManifestMade { digest, subject } => {
            add_made(alloc, fields, name, "/manifests/", digest)?;
            add_subject(alloc, fields, subject)
        }
        Reply::Tags { next, n, .. } => add_link(alloc, fields, name, *n, next),
        Reply::Referrers { filtered, .. } => add_filter(alloc, fields, *filtered),
        Reply::Deleted => Ok(()),
        Reply::Refused { detail, .. } => add_refusal(alloc, fields, name, detail),
    }
}

// Adds the field that names a manifest's subject, where it has one.
#[tactic(auto, unfolding(crate::specs::Fields::subject_fields))]
fn add_subject(
    alloc: Global,
    fields: &mut Vec<Field>,
    subject: &Option<Digest>,
) -> Result<(), AllocError>
    ensures { OnOk result (fields.new.items ≡ fields.old.items ++ subject_fields subject.now) }
{
    match subject {
        Some(digest) => add_digest(alloc, fields, FieldName::Subject, digest),
        None => Ok(()),
    }
}

// Adds the own fields of a refusal.
#[tactic(auto, unfolding(crate::specs::Spelling::refusal_fields, crate::specs::Fields::allow_field))]
fn add_refusal(
    alloc: Global,
    fields: &mut Vec<Field>,
    name: &str,
    detail: &Detail,
) -> Result<(), AllocError>
    ensures { OnOk result (fields.new.items ≡ fields.old.items ++ refusal_fields name.now detail.now) }
{
    match detail {
        Detail::Allow(which) => add_field(alloc, fields, FieldName::Allow, methods_text(*which)),
        Detail::Session(id, size) => add_upload(alloc, fields, name, id, *size),
        _ => Ok(()),
    }
}

// The media of a reply's body, where they are named.
#[tactic(auto, unfolding(crate::specs::Spelling::parts_of, crate::specs::Spelling::byte_media, crate::specs::Spelling::json_media))]
fn media_of(_name: &str, reply: &Reply) -> Option<&'static str>
    ensures { option_copied result ≡ (parts_of _name.now reply.now).media }
{
    match reply {
        Reply::Base | Reply::Tags { .. } | Reply::Refused { .. } => Some("application/json"),
        Reply::Blob { .. } | Reply::BlobHead { .. } => Some("application/octet-stream"),
        Reply::Manifest { media, .. } | Reply::ManifestHead { media, .. } => Some(media.text()),
        Reply::Referrers { .. } => Some(Media::Index.text()),
        Reply::BlobMade { .. }
        | Reply::Session { .. }
        | Reply::ManifestMade { .. }
        | Reply::Deleted => None,
    }
}

// The size of the body that a GET has, where the reply's own has this length.
#[tactic(auto, unfolding(crate::specs::Spelling::parts_of))]
fn size_of(_name: &str, reply: &Reply, count: u64) -> u64
    requires { count ≡ length (parts_of _name.now reply.now).body }
    ensures { result ≡ (parts_of _name.now reply.now).size }
{
    match reply {
        Reply::BlobHead { size, .. } | Reply::ManifestHead { size, .. } => *size,
        _ => count,
    }
}

// The body of a reply that has none in it, but whose body is made: JSON, or nothing.
#[tactic(auto, unfolding(crate::specs::Spelling::made_body, crate::specs::Spelling::base_body))]
fn made_body(alloc: Global, name: &str, reply: &Reply) -> Result<String, AllocError>
    ensures { IfOk result (λ made. string_bytes made ≡ made_body name.now reply.now) }
{
    match reply {
        Reply::Base => String::from_str(alloc, "{}"),
        Reply::Tags { tags, .. } => page_body(alloc, name, tags.as_slice()),
        Reply::Refused { code, detail, .. } => error_body(alloc, *code, detail),
        _ => Ok(String::new(alloc)),
    }
}

// The body of a reply, where this is what is made of it.
#[tactic(auto, unfolding(crate::specs::Spelling::parts_of, crate::specs::Spelling::made_body))]
fn body_in<'a>(_name: &str, reply: &'a Reply, made: &'a str) -> &'a [u8]
    requires { made.now ≡ made_body _name.now reply.now }
    ensures { result.now ≡ (parts_of _name.now reply.now).body }
{
    match reply {
        Reply::Blob { bytes, .. } | Reply::Manifest { bytes, .. } => bytes.as_slice(),
        Reply::Referrers { text, .. } => text.as_slice(),
        _ => made.as_bytes(),
    }
}

// The body, unless the method is HEAD.
#[tactic(auto, unfolding(crate::specs::Spelling::shown_body))]
fn shown_in(head: bool, body: &[u8]) -> &[u8]
    ensures { result.now ≡ shown_body head body.now }
{
    if head { b"".as_slice() } else { body }
}
