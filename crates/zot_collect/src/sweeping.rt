//! Which blobs may be removed.
ghost use Rattle.std.specs.Prelude.{◌≡◌, ◌&&◌, not, ℕ, List, Bool, map, IfOk};
ghost use Rattle.std.specs.BTreeSet.{contains};
ghost use Rattle.std.specs.List.{filter};
ghost use Rattle.zot_model.specs.Ages.{is_aged};
ghost use Rattle.zot_model.specs.Sweep.{blob_digests, swept};
ghost use Rattle.zot_digest.specs.ByteMap.{byte_cmp};
ghost use Rattle.zot_retention.specs.Kept.{Ascend};

use crate::age::is_aged;
use crate::held::held_by;
use crate::retire_view::RetireView;
use std::alloc::{AllocError, Global};
use std::collections::BTreeSet;
use zot_digest::Digest;

/// The digests of the blobs that may be removed: of those that are at least `delay` seconds old at the moment, that are no manifest
/// and that no manifest of the repository refers to. They are in the order of the blobs. It fails only where memory runs out.
pub fn sweepable(
    alloc: Global,
    state: &RetireView,
    moment: u64,
    delay: u64,
) -> Result<Vec<Digest>, AllocError>
    ensures swept { IfOk result (λ found. found.items ≡ swept state.now.manifests.items state.now.blobs.items moment delay) }
    ensures ascend { Ascend (blob_digests state.now.blobs.items) → IfOk result (λ found. Ascend found.items) }
{
    let held = held_by(alloc, state.manifests.as_slice())?;
    let found = not_held(alloc, state.blobs.as_slice(), &held, moment, delay)?;
    Ok(found)
}

// The digests of these blobs that are old enough and aren't held.
fn not_held(
    alloc: Global,
    blobs: &[(Digest, u64)],
    held: &BTreeSet<Digest>,
    moment: u64,
    delay: u64,
) -> Result<Vec<Digest>, AllocError>
    ensures { IfOk result (λ found. found.items ≡
        blob_digests (filter (λ blob. is_aged moment delay blob.1 && not (contains byte_cmp held.now blob.0)) blobs.now)) }
{
    let mut found = Vec::new(alloc);
    for blob in blobs {
        if is_free(held, moment, delay, blob) {
            found.push(blob.0)?;
        }
    }
    Ok(found)
}

// Whether a blob is old enough and isn't held.
fn is_free(held: &BTreeSet<Digest>, moment: u64, delay: u64, blob: &(Digest, u64)) -> bool
    ensures { result ≡ (is_aged moment delay blob.now.1 && not (contains byte_cmp held.now blob.now.0)) }
{
    is_aged(moment, delay, blob.1) && !held.contains(&blob.0)
}
