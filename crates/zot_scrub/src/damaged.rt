//! Damaged blobs.
ghost use Rattle.std.specs.Prelude.{◌≡◌, not, IfOk};
ghost use Rattle.zot_digest.specs.Digest.{is_sound};
ghost use Rattle.zot_model.specs.Findings.{damaged};
ghost use Rattle.zot_model.specs.declared.finding.Finding.TheVariants.{Damaged};

use rayon::prelude::*;
use std::alloc::{AllocError, Global};
use std::thread::Threads;
use zot_digest::{Bytes, Digest, digest_of};
use zot_model::Finding;

// The blobs whose bytes don't have their digest, in their order. Each processor has a part of the blobs to hash.
pub(crate) fn damaged(
    rt: &(impl Threads + Sync),
    alloc: Global,
    contents: &[(Digest, Bytes)],
) -> Result<Vec<Finding>, AllocError>
    ensures { IfOk result (λ found. found.items ≡ damaged contents.now) }
{
    contents
        .par_iter()
        .with_min_len(1)
        .filter(
            |blob: &&(Digest, Bytes)| -> bool
                ensures { result ≡ not (is_sound blob.now.now.0 blob.now.now.1) }
            { !is_sound(*blob) },
        )
        .map(
            |blob: &(Digest, Bytes)| -> Finding
                ensures { result ≡ Damaged blob.now.0 }
            { Finding::Damaged(blob.0) },
        )
        .collect(rt, alloc)
}

// Whether a blob's bytes have its digest.
fn is_sound(blob: &(Digest, Bytes)) -> bool
    ensures { result ≡ is_sound blob.now.0 blob.now.1 }
{
    blob.0 == digest_of(blob.1.as_slice())
}
