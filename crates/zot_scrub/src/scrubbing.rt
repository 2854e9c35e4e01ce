//! All that is wrong.
ghost use Rattle.std.specs.Prelude.{◌≡◌, IfOk};
ghost use Rattle.zot_model.specs.Findings.{findings};

use crate::damaged::damaged;
use crate::digest_set::stored_digests;
use crate::missing::add_missing;
use std::alloc::{AllocError, Global};
use std::thread::Threads;
use zot_digest::{Bytes, Digest};
use zot_model::{Finding, ManifestRow};

/// What is wrong in a repository with these blobs and manifests: each blob whose bytes don't have its digest, in the order of
/// the blobs; then of each manifest, in their order, that its own bytes are no blob, or else what it needs and is no blob, in the
/// order of digests, each once. The findings are the same for any number of threads. It fails only where memory runs out.
pub fn scrub_repo(
    rt: &(impl Threads + Sync),
    alloc: Global,
    contents: &[(Digest, Bytes)],
    manifests: &[ManifestRow],
) -> Result<Vec<Finding>, AllocError>
    ensures { IfOk result (λ found. found.items ≡ findings contents.now manifests.now) }
{
    let mut found = damaged(rt, alloc, contents)?;
    let stored = stored_digests(alloc, contents)?;
    for row in manifests {
        add_missing(&mut found, alloc, &stored, row)?;
    }
    Ok(found)
}
