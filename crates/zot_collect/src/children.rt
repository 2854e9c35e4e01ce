//! The children of manifests that stay.
ghost use Rattle.std.specs.Prelude.{◌≡◌, ◌<◌, true, length, slice_get, Bool, OnOk, Some};
ghost use Rattle.zot_collect.specs.Marks.{AreLeast, AreRoots, IsReady, Spreads};
ghost use Rattle.zot_model.specs.Retire.{digests};
ghost use Rattle.zot_model.specs.declared.manifest_row.ManifestRow.{ManifestRow};
ghost use Rattle.zot_media.specs.References.{has_digest};
ghost use Rattle.zot_retention.specs.Kept.{Ascend};

use crate::staying::Staying;
use std::alloc::AllocError;
use zot_media::Descriptor;
use zot_model::ManifestRow;

// Marks the manifests of these descriptors.
pub(crate) fn mark_children(
    state: &mut Staying,
    manifests: &[ManifestRow],
    children: &[Descriptor],
) -> Result<(), AllocError>
    requires long { length state.old.marks.items ≡ length manifests.now }
    requires ascend { Ascend (digests manifests.now) }
    ensures { OnOk result (Spreads (λ row. has_digest row.digest children.now ≡ true) manifests.now state.old state.new) }
{
    for child in children {
        state.mark_digest(manifests, &child.digest)?;
    }
    Ok(())
}

// Marks the children of those that wait, and theirs, until none waits. Each manifest waits at most once.
pub(crate) fn mark_descendants(
    state: &mut Staying,
    manifests: &[ManifestRow],
) -> Result<(), AllocError>
    requires ready { IsReady manifests.now state.old }
    requires ascend { Ascend (digests manifests.now) }
    ensures { (root : ManifestRow → Bool) → AreRoots root manifests.now state.old.marks.items → OnOk result (AreLeast root manifests.now state.new.marks.items) }
{
    for _ in 0..manifests.len() {
        let Some(place) = state.waiting.pop() else {
            return Ok(());
        };
        let row = row_at(manifests, place);
        mark_children(state, manifests, row.reading.children.as_slice())?;
    }
    Ok(())
}

// The manifest at a place.
fn row_at(manifests: &[ManifestRow], place: usize) -> &ManifestRow
    requires { place < length manifests.now }
    ensures { slice_get manifests.now place ≡ Some result.now }
{
    &manifests[place]
}
