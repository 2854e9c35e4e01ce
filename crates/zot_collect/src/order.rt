//! The order of manifests.
ghost use Rattle.std.specs.Prelude.{◌≡◌, ◌↔◌, IsTrue};
ghost use Rattle.std.specs.Ordering.{is_lt};
ghost use Rattle.zot_model.specs.Retire.{digests};
ghost use Rattle.zot_digest.specs.ByteMap.{byte_cmp};
ghost use Rattle.zot_retention.specs.Kept.{Ascend};

use zot_model::ManifestRow;

/// Whether manifests are in the order of their digests, each digest once. Takes no memory.
pub fn are_in_order(manifests: &[ManifestRow]) -> bool
    ensures { IsTrue result ↔ Ascend (digests manifests.now) }
{
    for place in 1..manifests.len() {
        if !is_before(&manifests[place - 1], &manifests[place]) {
            return false;
        }
    }
    true
}

// Whether the first manifest's digest is less than the second's.
fn is_before(first: &ManifestRow, second: &ManifestRow) -> bool
    ensures { result ≡ is_lt (byte_cmp first.now.digest second.now.digest) }
{
    first.digest.cmp(&second.digest).is_lt()
}
