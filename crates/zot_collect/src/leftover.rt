//! What has no mark.
ghost use Rattle.std.specs.Prelude.{◌≡◌, Bool, length, map, IfOk};
ghost use Rattle.zot_collect.specs.Retire.{tags_without};
ghost use Rattle.zot_model.specs.Retire.{manifests_without};
ghost use Rattle.zot_model.specs.declared.manifest_row.ManifestRow.{ManifestRow};
ghost use Rattle.zot_retention.specs.declared.tag_row.TagRow.{TagRow};

use std::alloc::{AllocError, Global};
use zot_digest::Digest;
use zot_model::ManifestRow;
use zot_names::Tag;
use zot_retention::TagRow;

// The tags without a mark.
pub(crate) fn unmarked_tags(
    alloc: Global,
    tags: &[TagRow],
    marks: &[bool],
) -> Result<Vec<Tag>, AllocError>
    requires { length marks.now ≡ length tags.now }
    ensures { (test : TagRow → Bool) → marks.now ≡ map test tags.now → IfOk result (λ gone. gone.items ≡ tags_without test tags.now) }
{
    let mut gone = Vec::new(alloc);
    for place in 0..tags.len() {
        if !marks[place] {
            gone.push(tags[place].tag.copy(alloc)?)?;
        }
    }
    Ok(gone)
}

// The digests of the manifests without a mark.
pub(crate) fn unmarked_manifests(
    alloc: Global,
    manifests: &[ManifestRow],
    marks: &[bool],
) -> Result<Vec<Digest>, AllocError>
    requires { length marks.now ≡ length manifests.now }
    ensures { (test : ManifestRow → Bool) → marks.now ≡ map test manifests.now → IfOk result (λ gone. gone.items ≡ manifests_without test manifests.now) }
{
    let mut gone = Vec::new(alloc);
    for place in 0..manifests.len() {
        if !marks[place] {
            gone.push(manifests[place].digest)?;
        }
    }
    Ok(gone)
}
