//! Sets of digests.
ghost use Rattle.std.specs.Prelude.{◌≡◌, ◌||◌, ℕ, List, IfOk, OnOk};
ghost use Rattle.std.specs.BTreeSet.{contains};
ghost use Rattle.std.specs.Str.{bytes_eq};
ghost use Rattle.zot_digest.specs.ByteMap.{byte_cmp};
ghost use Rattle.zot_model.specs.Findings.{has_blob};

use std::alloc::{AllocError, Global};
use std::collections::BTreeSet;
use zot_digest::{Bytes, Digest};

// The digests of these blobs.
pub(crate) fn stored_digests(
    alloc: Global,
    contents: &[(Digest, Bytes)],
) -> Result<BTreeSet<Digest>, AllocError>
    ensures { IfOk result (λ stored. (digest : List ℕ) → contains byte_cmp stored digest ≡ has_blob contents.now digest) }
{
    let mut stored = BTreeSet::new(alloc);
    for blob in contents {
        add(&mut stored, blob.0)?;
    }
    Ok(stored)
}

// Adds a digest.
pub(crate) fn add(set: &mut BTreeSet<Digest>, digest: Digest) -> Result<(), AllocError>
    ensures { OnOk result ((other : List ℕ) → contains byte_cmp set.new other ≡ (contains byte_cmp set.old other || bytes_eq digest other)) }
{
    match set.insert(digest) {
        Ok(_) => Ok(()),
        Err(_) => Err(AllocError),
    }
}
