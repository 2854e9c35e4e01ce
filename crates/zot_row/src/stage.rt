//! What a call on a repository waits for.
ghost use Rattle.std.specs.Prelude.{◌≡◌};
ghost use Rattle.zot_row.specs.Stages.{pending};

use zot_digest::{Bytes, Digest, Words};
use zot_manifests::Checked;
use zot_media::{Media, Reference};
use zot_names::UploadId;

/// What a call on a repository waits for, while the pool is asked, and what it goes on with.
#[derive(Drop)]
pub enum Stage {
    /// The bytes of a blob.
    Blob(Digest),
    /// The bytes of the manifest that a reference found.
    Manifest {
        digest: Digest,
        media: Media,
        reference: Reference,
    },
    /// That so many bytes are held under a digest.
    Attach {
        digest: Digest,
        size: u64,
        purpose: Attaching,
    },
    /// That what another repository holds under a digest is held by this one. Where it isn't, the call goes on with the rest; a repository that this call has made known may be forgotten again.
    Mount {
        digest: Digest,
        made: bool,
        rest: Rest,
    },
    /// That nothing is held under a digest.
    Detach(Digest),
    /// The bytes of a manifest that wasn't read yet, and then those of the others that weren't.
    Learn {
        digest: Digest,
        left: Vec<Digest>,
        purpose: Learning,
    },
}

/// What bytes are that are attached.
#[derive(Drop)]
pub enum Attaching {
    /// A blob.
    Blob,
    /// The bytes of an upload, which ends.
    Upload(UploadId),
    /// A manifest.
    Manifest(Checked),
}

/// What a POST is without its mount.
#[derive(Drop)]
pub enum Rest {
    /// Of a new upload.
    Upload,
    /// Of a blob, which the digest is that of.
    Blob { digest: Digest, body: Bytes },
    /// Of a blob that has another digest.
    Unsound,
}

/// What it is for that manifests are read.
#[derive(Drop)]
pub enum Learning {
    /// That a blob is deleted.
    Delete(Digest),
    /// The list of the referrers of a digest.
    List {
        digest: Digest,
        filter: Option<Words>,
    },
}

impl Stage {
    /// How often the pool is asked from here on, at most.
    pub fn pending(&self) -> u64
        ensures { result ≡ pending self.now }
    {
        match self {
            Stage::Mount { .. } => 2,
            Stage::Learn { left, .. } => left.len() as u64 + 2,
            _ => 1,
        }
    }
}
