//! Whether a manifest may be put.
ghost use Rattle.std.specs.Prelude.{◌≡◌, IfOk, is_some, Option};
ghost use Rattle.std.specs.Prelude.{IfErr};
ghost use Rattle.zot_manifests.specs.Check.{Answers, check_of};
ghost use Rattle.zot_media.specs.declared.media.Media.{Media as AMedia};
ghost use Rattle.zot_model.specs.Manifests.{first_missing, tag_in};
ghost use Rattle.zot_model.specs.PlainManifests.{is_other};

use crate::check_error::CheckError;
use crate::checked::Checked;
use crate::held::Held;
use crate::manifests::Manifests;
use std::alloc::{AllocError, Global};
use zot_digest::{Digest, digest_of};
use zot_media::{Media, MediaError, Reading, Reference, read_manifest};
use zot_names::Tag;

impl Manifests {
    /// Whether a manifest may be put into a repository that holds these blobs, and what is put then. The errors come in their order, each exactly where it is the first that fits, but that memory may run out in any case.
    pub fn check<H: Held>(
        &self,
        alloc: Global,
        held: &H,
        reference: &Reference,
        media: Option<Media>,
        body: &[u8],
    ) -> Result<Checked, CheckError>
        ensures { Answers result (check_of (H.sizes held.now) reference.now media body.now) }
    {
        let Some(media) = media else {
            return Err(CheckError::Media);
        };
        let reading = match read_manifest(alloc, media, body) {
            Ok(reading) => reading,
            Err(MediaError::Bad) => return Err(CheckError::Unread),
            Err(MediaError::NoMemory) => return Err(CheckError::NoMemory),
        };
        let digest = digest_of(body);
        if is_other(reference, &digest) {
            return Err(CheckError::Digest(digest));
        }
        if let Some(missing) = first_missing(held, reading.needed(alloc)?.as_slice()) {
            return Err(CheckError::Missing(missing));
        }
        Ok(Checked {
            digest,
            media,
            tag: tag_in(alloc, reference)?,
            reading,
            size: body.len() as u64,
        })
    }
}

// Whether a reference is another digest than this one.
fn is_other(reference: &Reference, digest: &Digest) -> bool
    ensures { result ≡ is_other reference.now digest.now }
{
    match reference {
        Reference::Tag(_) => false,
        Reference::Digest(other) => *other != *digest,
    }
}

// The first of these digests of which there is no blob.
fn first_missing<H: Held>(held: &H, digests: &[Digest]) -> Option<Digest>
    ensures { result ≡ first_missing (λ digest. is_some (H.sizes held.now digest)) digests.now }
{
    for digest in digests {
        if held.size(digest).is_none() {
            return Some(*digest);
        }
    }
    None
}

// A copy of the tag of a reference that is one.
fn tag_in(alloc: Global, reference: &Reference) -> Result<Option<Tag>, AllocError>
    ensures { IfOk result (λ tag. tag ≡ tag_in reference.now) }
{
    match reference {
        Reference::Tag(tag) => Ok(Some(tag.copy(alloc)?)),
        Reference::Digest(_) => Ok(None),
    }
}
