//! What manifests need and isn't there.
ghost use Rattle.std.specs.Prelude.{◌≡◌, ℕ, List, IfOk};
ghost use Rattle.std.specs.BTreeSet.{contains};
ghost use Rattle.std.specs.List.{list_any};
ghost use Rattle.std.specs.Str.{bytes_eq};
ghost use Rattle.zot_digest.specs.ByteMap.{byte_cmp};
ghost use Rattle.zot_scrub.specs.Missing.{lacking};

use crate::digest_set::add;
use std::alloc::{AllocError, Global};
use std::collections::BTreeSet;
use zot_digest::Digest;
use zot_model::ManifestRow;

// What a manifest needs and isn't among these digests.
pub(crate) fn lacking(
    alloc: Global,
    stored: &BTreeSet<Digest>,
    row: &ManifestRow,
) -> Result<BTreeSet<Digest>, AllocError>
    ensures { IfOk result (λ found. (digest : List ℕ) →
        contains byte_cmp found digest ≡ list_any (λ other. bytes_eq other digest) (lacking (contains byte_cmp stored.now) row.now)) }
{
    let needed = row.reading.needed(alloc)?;
    let mut found = BTreeSet::new(alloc);
    for digest in needed.as_slice() {
        if !stored.contains(digest) {
            add(&mut found, *digest)?;
        }
    }
    Ok(found)
}
