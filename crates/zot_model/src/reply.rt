//! Replies.
use crate::code::Code;
use crate::detail::Detail;
use zot_digest::{Bytes, Digest};
use zot_media::Media;
use zot_names::{Tag, TagList, UploadId};

/// The reply to a request.
#[derive(Debug, Drop, PartialEq, Eq)]
pub enum Reply {
    /// This is such a registry: 200.
    Base,
    /// A blob and its bytes: 200.
    Blob {
        digest: Digest,
        bytes: Bytes,
    },
    /// A blob's size: 200.
    BlobHead {
        digest: Digest,
        size: u64,
    },
    /// A blob was stored: 201.
    BlobMade {
        digest: Digest,
    },
    /// An upload and how many bytes it has: 202, or 204 where only that was asked.
    Session {
        id: UploadId,
        length: u64,
        status: u16,
    },
    /// A manifest was stored: 201.
    ManifestMade {
        digest: Digest,
        subject: Option<Digest>,
    },
    /// A manifest and its bytes: 200.
    Manifest {
        digest: Digest,
        media: Media,
        bytes: Bytes,
    },
    /// A manifest's media and size: 200.
    ManifestHead {
        digest: Digest,
        media: Media,
        size: u64,
    },
    /// A page of tags, the last of them where more follow, and the most that were asked for: 200.
    Tags {
        tags: TagList,
        next: Option<Tag>,
        n: u64,
    },
    /// The text of an index of manifests with one subject, and whether they were filtered: 200.
    Referrers {
        text: Bytes,
        filtered: bool,
    },
    /// What was asked to be deleted is deleted: 202.
    Deleted,
    /// The request was refused with this status.
    Refused {
        status: u16,
        code: Code,
        detail: Detail,
    },
}
