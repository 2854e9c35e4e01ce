//! The manifests that stay by themselves.
ghost use Rattle.std.specs.Prelude.{◌≡◌, ℕ, true, Bool, List, length, map, IfOk, OnOk};
ghost use Rattle.std.specs.BTreeSet.{contains};
ghost use Rattle.zot_collect.specs.Marks.{Spreads};
ghost use Rattle.zot_collect.specs.Retire.{is_tagged};
ghost use Rattle.zot_model.specs.Retire.{is_root};
ghost use Rattle.zot_digest.specs.ByteMap.{byte_cmp};
ghost use Rattle.zot_retention.specs.declared.tag_row.TagRow.{TagRow};

use crate::age::is_aged;
use crate::held::add;
use crate::staying::Staying;
use std::alloc::{AllocError, Global};
use std::collections::BTreeSet;
use zot_digest::Digest;
use zot_model::ManifestRow;
use zot_retention::TagRow;

// The digests of the tags with marks.
pub(crate) fn tagged_by(
    alloc: Global,
    tags: &[TagRow],
    marks: &[bool],
) -> Result<BTreeSet<Digest>, AllocError>
    requires { length marks.now ≡ length tags.now }
    ensures { (test : TagRow → Bool) → marks.now ≡ map test tags.now →
        IfOk result (λ tagged. (digest : List ℕ) → contains byte_cmp tagged digest ≡ is_tagged test tags.now digest) }
{
    let mut tagged = BTreeSet::new(alloc);
    for place in 0..tags.len() {
        if marks[place] {
            add(&mut tagged, tags[place].digest)?;
        }
    }
    Ok(tagged)
}

// Whether a manifest stays by itself, where these digests have a kept tag.
fn is_root(tagged: &BTreeSet<Digest>, moment: u64, delay: u64, row: &ManifestRow) -> bool
    ensures { result ≡ is_root (contains byte_cmp tagged.now) moment delay row.now }
{
    tagged.contains(&row.digest)
        || !is_aged(moment, delay, row.arrived)
        || row.reading.subject.is_some()
}

// Marks the manifests that stay by themselves, where these digests have a kept tag.
pub(crate) fn mark_roots(
    state: &mut Staying,
    manifests: &[ManifestRow],
    tagged: &BTreeSet<Digest>,
    moment: u64,
    delay: u64,
) -> Result<(), AllocError>
    requires { length state.old.marks.items ≡ length manifests.now }
    ensures { OnOk result (Spreads (λ row. is_root (contains byte_cmp tagged.now) moment delay row ≡ true) manifests.now state.old state.new) }
{
    for place in 0..manifests.len() {
        if is_root(tagged, moment, delay, &manifests[place]) {
            state.mark(place)?;
        }
    }
    Ok(())
}
