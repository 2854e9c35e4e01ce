//! What manifests lack.
ghost use Rattle.std.specs.Prelude.{◌≡◌, ◌++◌, ℕ, List, map, OnOk};
ghost use Rattle.std.specs.BTreeSet.{contains};
ghost use Rattle.std.specs.List.{list_any};
ghost use Rattle.std.specs.Str.{bytes_eq};
ghost use Rattle.zot_digest.specs.ByteMap.{byte_cmp};
ghost use Rattle.zot_model.specs.Findings.{in_order};
ghost use Rattle.zot_model.specs.declared.finding.Finding.TheVariants.{Missing};
ghost use Rattle.zot_scrub.specs.Missing.{missing_by};

use crate::lacking::lacking;
use std::alloc::{AllocError, Global};
use std::collections::BTreeSet;
use zot_digest::Digest;
use zot_model::{Finding, ManifestRow};

// Adds what a manifest lacks of these digests.
pub(crate) fn add_missing(
    found: &mut Vec<Finding>,
    alloc: Global,
    stored: &BTreeSet<Digest>,
    row: &ManifestRow,
) -> Result<(), AllocError>
    ensures { OnOk result (found.new.items ≡ found.old.items ++ missing_by (contains byte_cmp stored.now) row.now) }
{
    let manifest = row.digest;
    if !stored.contains(&manifest) {
        found.push(Finding::Missing {
            manifest,
            digest: manifest,
        })?;
        return Ok(());
    }
    let lacking = lacking(alloc, stored, row)?;
    add_each(found, manifest, &lacking)
}

// Adds that a manifest lacks each of these digests, in their order.
fn add_each(
    found: &mut Vec<Finding>,
    manifest: Digest,
    lacking: &BTreeSet<Digest>,
) -> Result<(), AllocError>
    ensures { (digests : List (List ℕ)) → ((digest : List ℕ) → contains byte_cmp lacking.now digest ≡ list_any (λ other. bytes_eq other digest) digests) →
        OnOk result (found.new.items ≡ found.old.items ++ map (λ digest. Missing manifest digest) (in_order digests)) }
{
    for digest in lacking {
        found.push(Finding::Missing {
            manifest,
            digest: *digest,
        })?;
    }
    Ok(())
}
