//! What is asked of a registry.
ghost use Rattle.std.specs.Prelude.{◌≡◌};
ghost use Rattle.zot_model.specs.Calls.{is_head};

use crate::mount::Mount;
use crate::span::Span;
use zot_digest::{Bytes, Digest, Words};
use zot_media::{Media, Reference};
use zot_names::UploadId;

/// What a request asks for (OCI Distribution Specification, "Endpoints"). All but `Base` are asked of a repository.
#[derive(Debug, Drop, PartialEq, Eq)]
pub enum Call {
    /// Whether this is such a registry.
    Base,
    /// A blob.
    GetBlob(Digest),
    /// A blob's size.
    HeadBlob(Digest),
    /// That a blob is deleted.
    DeleteBlob(Digest),
    /// A blob, taken over from another repository, or given whole with its digest; or else a new upload.
    Post {
        mount: Option<Mount>,
        digest: Option<Digest>,
        body: Bytes,
    },
    /// More bytes of an upload.
    Patch {
        id: Option<UploadId>,
        range: Option<Span>,
        body: Bytes,
    },
    /// The last bytes of an upload, and the digest of all.
    Finish {
        id: Option<UploadId>,
        range: Option<Span>,
        digest: Digest,
        body: Bytes,
    },
    /// How far an upload has come. An id of none is a text that isn't one, here and in the two calls above.
    UploadState {
        id: Option<UploadId>,
    },
    /// A manifest to be stored. Media of none are a text that isn't one of the four, or no text at all.
    PutManifest {
        reference: Reference,
        media: Option<Media>,
        body: Bytes,
    },
    /// A manifest.
    GetManifest(Reference),
    /// A manifest's media and size.
    HeadManifest(Reference),
    /// That a manifest or a tag is deleted.
    DeleteManifest(Reference),
    /// The tags after `last`, at most n of them.
    Tags {
        n: Option<u64>,
        last: Option<Words>,
    },
    /// The manifests whose subject the digest is, of that artifact type.
    Referrers {
        digest: Digest,
        filter: Option<Words>,
    },
}

impl Call {
    /// Whether it is asked with HEAD, whose reply shows no body.
    pub fn is_head(&self) -> bool
        ensures { result ≡ is_head self.now }
    {
        matches!(self, Call::HeadBlob(_) | Call::HeadManifest(_))
    }
}
