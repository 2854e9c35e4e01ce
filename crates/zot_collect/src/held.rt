//! The blobs that manifests hold.
ghost use Rattle.std.specs.Prelude.{◌≡◌, ◌||◌, ℕ, List, IfOk, OnOk};
ghost use Rattle.std.specs.BTreeSet.{contains};
ghost use Rattle.std.specs.Str.{bytes_eq};
ghost use Rattle.zot_model.specs.Sweep.{is_held};
ghost use Rattle.zot_digest.specs.ByteMap.{byte_cmp};
ghost use Rattle.zot_media.specs.References.{has_digest, refers};

use std::alloc::{AllocError, Global};
use std::collections::BTreeSet;
use zot_digest::Digest;
use zot_media::{Descriptor, Reading};
use zot_model::ManifestRow;

// The digests of these manifests, and those that they refer to.
pub(crate) fn held_by(
    alloc: Global,
    manifests: &[ManifestRow],
) -> Result<BTreeSet<Digest>, AllocError>
    ensures { IfOk result (λ held. (digest : List ℕ) → contains byte_cmp held digest ≡ is_held manifests.now digest) }
{
    let mut held = BTreeSet::new(alloc);
    for manifest in manifests {
        add(&mut held, manifest.digest)?;
        add_referred(&mut held, &manifest.reading)?;
    }
    Ok(held)
}

// Adds the digests that a manifest refers to.
#[tactic(auto, unfolding(zot_media::specs::References::refers))]
fn add_referred(held: &mut BTreeSet<Digest>, reading: &Reading) -> Result<(), AllocError>
    ensures { OnOk result ((digest : List ℕ) → contains byte_cmp held.new digest ≡ (contains byte_cmp held.old digest || refers reading.now digest)) }
{
    add_each(held, reading.references.as_slice())?;
    add_each(held, reading.children.as_slice())
}

// Adds the digests of these descriptors.
fn add_each(held: &mut BTreeSet<Digest>, descriptors: &[Descriptor]) -> Result<(), AllocError>
    ensures { OnOk result ((digest : List ℕ) → contains byte_cmp held.new digest ≡ (contains byte_cmp held.old digest || has_digest digest descriptors.now)) }
{
    for descriptor in descriptors {
        add(held, descriptor.digest)?;
    }
    Ok(())
}

// Adds a digest.
pub(crate) fn add(held: &mut BTreeSet<Digest>, digest: Digest) -> Result<(), AllocError>
    ensures { OnOk result ((other : List ℕ) → contains byte_cmp held.new other ≡ (contains byte_cmp held.old other || bytes_eq digest other)) }
{
    match held.insert(digest) {
        Ok(_) => Ok(()),
        Err(_) => Err(AllocError),
    }
}
