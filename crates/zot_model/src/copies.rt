//! Copies of requests and replies. Each fails only where memory runs out.
ghost use Rattle.std.specs.Prelude.{◌≡◌, IfOk};

use crate::call::Call;
use crate::mount::Mount;
use crate::reply::Reply;
use crate::request::Request;
use std::alloc::{AllocError, Global};
use zot_digest::Words;
use zot_media::Reference;
use zot_names::{RepoName, Tag, TagList};

impl Request {
    /// A second request that is equal to it.
    pub fn copy(&self, alloc: Global) -> Result<Request, AllocError>
        ensures { IfOk result (λ copy. copy ≡ self.now) }
    {
        let name = copy_name(alloc, &self.name)?;
        let call = self.call.copy(alloc)?;
        Ok(Request {
            name,
            call,
            hop: self.hop,
        })
    }
}

impl Call {
    /// A second call that is equal to it.
    pub fn copy(&self, alloc: Global) -> Result<Call, AllocError>
        ensures { IfOk result (λ copy. copy ≡ self.now) }
    {
        match self {
            Call::Base => Ok(Call::Base),
            Call::GetBlob(digest) => Ok(Call::GetBlob(*digest)),
            Call::HeadBlob(digest) => Ok(Call::HeadBlob(*digest)),
            Call::DeleteBlob(digest) => Ok(Call::DeleteBlob(*digest)),
            Call::Post {
                mount,
                digest,
                body,
            } => Ok(Call::Post {
                mount: copy_mount(alloc, mount)?,
                digest: *digest,
                body: body.copy(alloc)?,
            }),
            Call::Patch { id, range, body } => Ok(Call::Patch {
                id: *id,
                range: *range,
                body: body.copy(alloc)?,
            }),
            Call::Finish {
                id,
                range,
                digest,
                body,
            } => Ok(Call::Finish {
                id: *id,
                range: *range,
                digest: *digest,
                body: body.copy(alloc)?,
            }),
            Call::UploadState { id } => Ok(Call::UploadState { id: *id }),
            Call::PutManifest {
                reference,
                media,
                body,
            } => Ok(Call::PutManifest {
                reference: copy_reference(alloc, reference)?,
                media: *media,
                body: body.copy(alloc)?,
            }),
            Call::GetManifest(reference) => {
                Ok(Call::GetManifest(copy_reference(alloc, reference)?))
            }
            Call::HeadManifest(reference) => {
                Ok(Call::HeadManifest(copy_reference(alloc, reference)?))
            }
            Call::DeleteManifest(reference) => {
                Ok(Call::DeleteManifest(copy_reference(alloc, reference)?))
            }
            Call::Tags { n, last } => Ok(Call::Tags {
                n: *n,
                last: copy_words(alloc, last)?,
            }),
            Call::Referrers { digest, filter } => Ok(Call::Referrers {
                digest: *digest,
                filter: copy_words(alloc, filter)?,
            }),
        }
    }
}

impl Mount {
    /// A second value that is equal to it.
    pub fn copy(&self, alloc: Global) -> Result<Mount, AllocError>
        ensures { IfOk result (λ copy. copy ≡ self.now) }
    {
        Ok(Mount {
            digest: self.digest,
            from: copy_name(alloc, &self.from)?,
        })
    }
}

impl Reply {
    /// A second reply that is equal to it.
    pub fn copy(&self, alloc: Global) -> Result<Reply, AllocError>
        ensures { IfOk result (λ copy. copy ≡ self.now) }
    {
        match self {
            Reply::Base => Ok(Reply::Base),
            Reply::Blob { digest, bytes } => Ok(Reply::Blob {
                digest: *digest,
                bytes: bytes.copy(alloc)?,
            }),
            Reply::BlobHead { digest, size } => Ok(Reply::BlobHead {
                digest: *digest,
                size: *size,
            }),
            Reply::BlobMade { digest } => Ok(Reply::BlobMade { digest: *digest }),
            Reply::Session { id, length, status } => Ok(Reply::Session {
                id: *id,
                length: *length,
                status: *status,
            }),
            Reply::ManifestMade { digest, subject } => Ok(Reply::ManifestMade {
                digest: *digest,
                subject: *subject,
            }),
            Reply::Manifest {
                digest,
                media,
                bytes,
            } => Ok(Reply::Manifest {
                digest: *digest,
                media: *media,
                bytes: bytes.copy(alloc)?,
            }),
            Reply::ManifestHead {
                digest,
                media,
                size,
            } => Ok(Reply::ManifestHead {
                digest: *digest,
                media: *media,
                size: *size,
            }),
            Reply::Tags { tags, next, n } => Ok(Reply::Tags {
                tags: TagList::new(copy_tags(alloc, tags.as_slice())?),
                next: copy_tag(alloc, next)?,
                n: *n,
            }),
            Reply::Referrers { text, filtered } => Ok(Reply::Referrers {
                text: text.copy(alloc)?,
                filtered: *filtered,
            }),
            Reply::Deleted => Ok(Reply::Deleted),
            Reply::Refused {
                status,
                code,
                detail,
            } => Ok(Reply::Refused {
                status: *status,
                code: *code,
                detail: *detail,
            }),
        }
    }
}

// A second reference that is equal to this one.
fn copy_reference(alloc: Global, reference: &Reference) -> Result<Reference, AllocError>
    ensures { IfOk result (λ copy. copy ≡ reference.now) }
{
    match reference {
        Reference::Tag(tag) => Ok(Reference::Tag(tag.copy(alloc)?)),
        Reference::Digest(digest) => Ok(Reference::Digest(*digest)),
    }
}

// The same of a blob to be taken over.
fn copy_mount(alloc: Global, mount: &Option<Mount>) -> Result<Option<Mount>, AllocError>
    ensures { IfOk result (λ copy. copy ≡ mount.now) }
{
    match mount {
        Some(mount) => Ok(Some(mount.copy(alloc)?)),
        None => Ok(None),
    }
}

// The same of a name.
fn copy_name(alloc: Global, name: &Option<RepoName>) -> Result<Option<RepoName>, AllocError>
    ensures { IfOk result (λ copy. copy ≡ name.now) }
{
    match name {
        Some(name) => Ok(Some(name.copy(alloc)?)),
        None => Ok(None),
    }
}

// The same of words.
fn copy_words(alloc: Global, words: &Option<Words>) -> Result<Option<Words>, AllocError>
    ensures { IfOk result (λ copy. copy ≡ words.now) }
{
    match words {
        Some(words) => Ok(Some(words.copy(alloc)?)),
        None => Ok(None),
    }
}

// The same of a tag.
fn copy_tag(alloc: Global, tag: &Option<Tag>) -> Result<Option<Tag>, AllocError>
    ensures { IfOk result (λ copy. copy ≡ tag.now) }
{
    match tag {
        Some(tag) => Ok(Some(tag.copy(alloc)?)),
        None => Ok(None),
    }
}

// The same of tags.
fn copy_tags(alloc: Global, tags: &[Tag]) -> Result<Vec<Tag>, AllocError>
    ensures { IfOk result (λ copy. copy.items ≡ tags.now) }
{
    let mut copies = Vec::with_capacity(alloc, tags.len())?;
    for tag in tags {
        copies.push(tag.copy(alloc)?)?;
    }
    Ok(copies)
}
