//! Where a manifest stands.
ghost use Rattle.std.specs.Prelude.{◌≡◌, ◌≢◌, ℕ, IfNone, IfSome, Some, slice_get};
ghost use Rattle.zot_collect.specs.Marks.{HoldsThere};
ghost use Rattle.zot_model.specs.Retire.{digests};
ghost use Rattle.zot_model.specs.declared.manifest_row.ManifestRow.{ManifestRow};
ghost use Rattle.zot_retention.specs.Kept.{Ascend};

use zot_digest::Digest;
use zot_model::ManifestRow;

// The place of a digest's manifest, among manifests in the order of their digests.
pub(crate) fn place_of(manifests: &[ManifestRow], digest: &Digest) -> Option<usize>
    requires { Ascend (digests manifests.now) }
    ensures found { IfSome result (λ place. HoldsThere (λ row. row.digest ≡ digest.now) manifests.now place) }
    ensures none { IfNone result ((place : ℕ) (row : ManifestRow) → slice_get manifests.now place ≡ Some row → row.digest ≢ digest.now) }
{
    match manifests.binary_search_by_key(digest, |row| row.digest) {
        Ok(place) => Some(place),
        Err(_) => None,
    }
}
