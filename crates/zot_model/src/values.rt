//! The values of requests and replies.
ghost use Rattle.std.specs.Prelude.{IfSome, IsUtf8};
ghost use Rattle.std.specs.List.{AllByRecursion};
ghost use Rattle.zot_digest.specs.Digest.{IsDigest};
ghost use Rattle.zot_model.specs.Values.{HasCallValues, HasValues, IsMount, IsReal, IsRealDetail, IsRef, IsWord};
ghost use Rattle.zot_names.specs.Name.{IsName};
ghost use Rattle.zot_names.specs.Tag.{IsTag};

use crate::call::Call;
use crate::detail::Detail;
use crate::mount::Mount;
use crate::reply::Reply;
use crate::request::Request;
use zot_digest::{Digest, Words};
use zot_media::Reference;
use zot_names::{RepoName, Tag, UploadId};

/// The values of every request are those that its types have. Takes no memory.
pub fn has_values(request: &Request)
    ensures { HasValues request.now }
{
    check_name(&request.name);
    check_call(&request.call);
}

/// The values of every reply are those that its types have. Takes no memory.
pub fn real_values(reply: &Reply)
    ensures { IsReal reply.now }
{
    match reply {
        Reply::Blob { digest, .. } | Reply::BlobMade { digest } | Reply::Manifest { digest, .. } =>
            check_digest(digest),
        Reply::BlobHead { digest, size } | Reply::ManifestHead { digest, size, .. } => {
            check_digest(digest);
            check_number(*size)
        }
        Reply::Session { id, length, .. } => {
            check_id(id);
            check_number(*length)
        }
        Reply::ManifestMade { digest, subject } => {
            check_digest(digest);
            check_some_digest(subject)
        }
        Reply::Tags { tags, next, n } => {
            check_tags(tags.as_slice());
            check_next(next);
            check_number(*n)
        }
        Reply::Refused { detail, .. } => check_detail(detail),
        Reply::Base | Reply::Referrers { .. } | Reply::Deleted => {}
    }
}

// The values of a call are those that its types have.
fn check_call(call: &Call)
    ensures { HasCallValues call.now }
{
    match call {
        Call::Base => {}
        Call::GetBlob(digest) | Call::HeadBlob(digest) | Call::DeleteBlob(digest) => {
            check_digest(digest)
        }
        Call::Post { mount, digest, .. } => {
            check_mount(mount);
            check_some_digest(digest);
        }
        Call::Patch { id, .. } | Call::UploadState { id } => check_some_id(id),
        Call::Finish { id, digest, .. } => {
            check_some_id(id);
            check_digest(digest);
        }
        Call::PutManifest { reference, .. }
        | Call::GetManifest(reference)
        | Call::HeadManifest(reference)
        | Call::DeleteManifest(reference) => check_reference(reference),
        Call::Tags { last, .. } => check_words(last),
        Call::Referrers { digest, filter } => {
            check_digest(digest);
            check_words(filter);
        }
    }
}

// So are those of a detail.
fn check_detail(detail: &Detail)
    ensures { IsRealDetail detail.now }
{
    match detail {
        Detail::Missing(digest) => check_digest(digest),
        Detail::Differ(wanted, found) => {
            check_digest(wanted);
            check_digest(found)
        }
        Detail::Session(id, size) => {
            check_id(id);
            check_number(*size)
        }
        Detail::None | Detail::Allow(_) => {}
    }
}

// A blob to be taken over has a digest, and may have a name.
fn check_mount(mount: &Option<Mount>)
    ensures { IfSome mount.now IsMount }
{
    if let Some(mount) = mount {
        check_digest(&mount.digest);
        check_name(&mount.from);
    }
}

// A reference is a tag or a digest.
fn check_reference(reference: &Reference)
    ensures { IsRef reference.now }
{
    match reference {
        Reference::Tag(tag) => {
            let _ = tag.as_str();
        }
        Reference::Digest(digest) => check_digest(digest),
    }
}

// A name is one.
fn check_name(name: &Option<RepoName>)
    ensures { IfSome name.now IsName }
{
    if let Some(name) = name {
        let _ = name.as_str();
    }
}

// A digest has 32 bytes.
fn check_digest(digest: &Digest)
    ensures { IsDigest digest.now }
{
    let _ = digest.as_bytes();
}

// So has one that is there.
fn check_some_digest(digest: &Option<Digest>)
    ensures { IfSome digest.now IsDigest }
{
    if let Some(digest) = digest {
        check_digest(digest);
    }
}

// An id is a number of 64 bits.
fn check_id(id: &UploadId)
    ensures { IsWord id.now }
{
    check_number(id.number())
}

// So is one that is there.
fn check_some_id(id: &Option<UploadId>)
    ensures { IfSome id.now IsWord }
{
    if let Some(id) = id {
        check_id(id);
    }
}

// A number has 64 bits.
fn check_number(_number: u64)
    ensures { IsWord _number }
{}

// Words are a text.
fn check_words(words: &Option<Words>)
    ensures { IfSome words.now IsUtf8 }
{
    if let Some(words) = words {
        let _ = words.as_str();
    }
}

// The tags of a list are tags.
fn check_tags(tags: &[Tag])
    ensures { AllByRecursion IsTag tags.now }
{
    for tag in tags {
        tag.as_slice();
    }
}

// So is one that is there.
fn check_next(next: &Option<Tag>)
    ensures { IfSome next.now IsTag }
{
    if let Some(tag) = next {
        tag.as_slice();
    }
}
