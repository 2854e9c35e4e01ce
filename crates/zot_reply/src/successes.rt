//! The replies with which calls succeed.
ghost use Rattle.std.specs.Prelude.{◌≡◌, Some, IfOk};
ghost use Rattle.zot_model.specs.Fits.{IsBlob, IsBlobHead, IsBlobMade, IsManifest, IsManifestHead, IsManifestMade, IsReferrers};
ghost use Rattle.zot_reply.specs.Reading.{IsPageFrom, IsPosting, IsReadAs, IsSuccessFrom, IsUpload, seen_of};
ghost use Rattle.zot_spell.specs.Spelling.{name_in};

use crate::pages::{link_number, link_tag, tags_of};
use crate::values::{
    content_digest, content_length, content_media, subject_digest, upload_id, upload_length,
};
use std::alloc::{AllocError, Global};
use zot_digest::Bytes;
use zot_model::{Call, Reply, Request};
use zot_spell::{FieldName, SplitReply, name_of, value_in};

/// The reply with which a request succeeds, where the bytes that were split are such a reply; else another one.
pub fn read_success(
    alloc: Global,
    request: &Request,
    split: &SplitReply,
) -> Result<Reply, AllocError>
    ensures { IfOk result (IsSuccessFrom (name_in (Some request.now)) request.now.call (seen_of split.now)) }
{
    match &request.call {
        Call::Base => Ok(Reply::Base),
        Call::GetBlob(_) => read_blob(alloc, split),
        Call::HeadBlob(_) => Ok(read_blob_head(split)),
        Call::DeleteBlob(_) | Call::DeleteManifest(_) => Ok(Reply::Deleted),
        Call::Post { .. } => Ok(read_post(split)),
        Call::Patch { .. } => Ok(read_upload(split)),
        Call::UploadState { .. } => Ok(read_upload(split)),
        Call::Finish { .. } => Ok(read_blob_made(split)),
        Call::PutManifest { .. } => Ok(read_manifest_made(split)),
        Call::GetManifest(_) => read_manifest(alloc, split),
        Call::HeadManifest(_) => Ok(read_manifest_head(split)),
        Call::Tags { .. } => read_page(alloc, request, split),
        Call::Referrers { .. } => read_referrers(alloc, split),
    }
}

// A blob.
fn read_blob(alloc: Global, split: &SplitReply) -> Result<Reply, AllocError>
    ensures { IfOk result (IsReadAs IsBlob (seen_of split.now)) }
{
    let digest = content_digest(split);
    let bytes = copied(alloc, split.body)?;
    Ok(Reply::Blob { digest, bytes })
}

// A blob's size.
fn read_blob_head(split: &SplitReply) -> Reply
    ensures { IsReadAs IsBlobHead (seen_of split.now) result }
{
    let digest = content_digest(split);
    let size = content_length(split);
    Reply::BlobHead { digest, size }
}

// A blob that was stored.
fn read_blob_made(split: &SplitReply) -> Reply
    ensures { IsReadAs IsBlobMade (seen_of split.now) result }
{
    let digest = content_digest(split);
    Reply::BlobMade { digest }
}

// An upload.
fn read_upload(split: &SplitReply) -> Reply
    ensures { IsReadAs IsUpload (seen_of split.now) result }
{
    let id = upload_id(split);
    let length = upload_length(split);
    let status = split.status;
    Reply::Session { id, length, status }
}

// A blob that was stored, or an upload that began.
fn read_post(split: &SplitReply) -> Reply
    ensures { IsReadAs (IsPosting (seen_of split.now)) (seen_of split.now) result }
{
    if split.status == 201 {
        read_blob_made(split)
    } else {
        read_upload(split)
    }
}

// A manifest that was stored.
fn read_manifest_made(split: &SplitReply) -> Reply
    ensures { IsReadAs IsManifestMade (seen_of split.now) result }
{
    let digest = content_digest(split);
    let subject = subject_digest(split);
    Reply::ManifestMade { digest, subject }
}

// A manifest.
fn read_manifest(alloc: Global, split: &SplitReply) -> Result<Reply, AllocError>
    ensures { IfOk result (IsReadAs IsManifest (seen_of split.now)) }
{
    let digest = content_digest(split);
    let media = content_media(split);
    let bytes = copied(alloc, split.body)?;
    Ok(Reply::Manifest {
        digest,
        media,
        bytes,
    })
}

// A manifest's media and size.
fn read_manifest_head(split: &SplitReply) -> Reply
    ensures { IsReadAs IsManifestHead (seen_of split.now) result }
{
    let digest = content_digest(split);
    let media = content_media(split);
    let size = content_length(split);
    Reply::ManifestHead {
        digest,
        media,
        size,
    }
}

// A page of tags. One after which none follows has no number.
fn read_page(alloc: Global, request: &Request, split: &SplitReply) -> Result<Reply, AllocError>
    ensures { IfOk result (IsReadAs (IsPageFrom (name_in (Some request.now)) (seen_of split.now)) (seen_of split.now)) }
{
    let name = name_of(Some(request));
    let tags = tags_of(alloc, name, split.body)?;
    match value_in(FieldName::Link, split.fields.as_slice()) {
        Some(link) => {
            let next = link_tag(alloc, name, link)?;
            let n = link_number(name, link);
            Ok(Reply::Tags { tags, next, n })
        }
        None => {
            let (next, n) = (None, 0);
            Ok(Reply::Tags { tags, next, n })
        }
    }
}

// An index of referrers.
fn read_referrers(alloc: Global, split: &SplitReply) -> Result<Reply, AllocError>
    ensures { IfOk result (IsReadAs IsReferrers (seen_of split.now)) }
{
    let text = copied(alloc, split.body)?;
    let fields = split.fields.as_slice();
    let filtered = matches!(value_in(FieldName::FiltersApplied, fields), Some(_));
    Ok(Reply::Referrers { text, filtered })
}

// A copy of these bytes.
fn copied(alloc: Global, bytes: &[u8]) -> Result<Bytes, AllocError>
    ensures { IfOk result (λ copy. copy ≡ bytes.now) }
{
    Ok(Bytes::new(Vec::from_slice(alloc, bytes)?))
}
