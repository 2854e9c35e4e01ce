//! Which tags and manifests go.
ghost use Rattle.std.specs.Prelude.{◌≡◌, ℕ, Some, List, Bool, length, map, option_map, IfOk};
ghost use Rattle.zot_collect.specs.Marks.{AreLeast};
ghost use Rattle.std.specs.BTreeSet.{contains};
ghost use Rattle.zot_collect.specs.Retire.{GoneManifests, gone_tags, is_tagged};
ghost use Rattle.zot_model.specs.Retire.{GoWhere, digests, is_root};
ghost use Rattle.zot_digest.specs.ByteMap.{byte_cmp};
ghost use Rattle.zot_retention.specs.Kept.{Ascend};
ghost use Rattle.zot_retention.specs.declared.tag_row.TagRow.{TagRow};

use crate::children::mark_descendants;
use crate::leftover::{unmarked_manifests, unmarked_tags};
use crate::retire_view::RetireView;
use crate::retired::Retired;
use crate::roots::{mark_roots, tagged_by};
use crate::staying::Staying;
use std::alloc::{AllocError, Global};
use std::collections::BTreeSet;
use zot_digest::Digest;
use zot_model::ManifestRow;
use zot_retention::{Compiled, TagRow, kept_marks};

/// The tags and manifests that go from a repository at the moment: the tags that the policy doesn't keep, and then, where it
/// deletes the untagged, the manifests that neither stay by themselves nor are children of ones that stay. A manifest stays by itself
/// where it has a kept tag, is younger than `delay` seconds, or has a subject. Without a policy nothing goes. `are_in_order` says
/// whether the manifests are in the order that is required. It fails only where memory runs out.
pub fn retire(
    alloc: Global,
    policy: Option<&Compiled>,
    state: &RetireView,
    moment: u64,
    delay: u64,
) -> Result<Retired, AllocError>
    requires { Ascend (digests state.now.manifests.items) }
    ensures tags { IfOk result (λ retired. retired.tags.items ≡ gone_tags (option_map (λ policy. policy.now) policy.entry) state.now.tags.items moment) }
    ensures manifests { IfOk result (λ retired.
        GoneManifests (option_map (λ policy. policy.now) policy.entry) state.now.tags.items state.now.manifests.items moment delay retired.manifests.items) }
{
    match policy {
        Some(policy) => retire_under(
            alloc,
            policy,
            state.tags.as_slice(),
            state.manifests.as_slice(),
            moment,
            delay,
        ),
        None => Ok(Retired {
            tags: Vec::new(alloc),
            manifests: Vec::new(alloc),
        }),
    }
}

// What goes under a policy.
fn retire_under(
    alloc: Global,
    policy: &Compiled,
    tags: &[TagRow],
    manifests: &[ManifestRow],
    moment: u64,
    delay: u64,
) -> Result<Retired, AllocError>
    requires { Ascend (digests manifests.now) }
    ensures tags { IfOk result (λ retired. retired.tags.items ≡ gone_tags (Some policy.now) tags.now moment) }
    ensures manifests { IfOk result (λ retired. GoneManifests (Some policy.now) tags.now manifests.now moment delay retired.manifests.items) }
{
    let kept = kept_marks(alloc, policy, tags, moment)?;
    let gone = unmarked_tags(alloc, tags, kept.as_slice())?;
    let tagged = tagged_by(alloc, tags, kept.as_slice())?;
    let deletes = policy.deletes_untagged();
    let manifests = gone_manifests(alloc, deletes, manifests, &tagged, moment, delay)?;
    Ok(Retired {
        tags: gone,
        manifests,
    })
}

// The manifests that go, where these digests have a kept tag: none where the untagged ones stay.
fn gone_manifests(
    alloc: Global,
    deletes: bool,
    manifests: &[ManifestRow],
    tagged: &BTreeSet<Digest>,
    moment: u64,
    delay: u64,
) -> Result<Vec<Digest>, AllocError>
    requires { Ascend (digests manifests.now) }
    ensures { IfOk result (λ gone. GoWhere deletes (is_root (contains byte_cmp tagged.now) moment delay) manifests.now gone.items) }
{
    if !deletes {
        return Ok(Vec::new(alloc));
    }
    let staying = staying(alloc, manifests, tagged, moment, delay)?;
    let gone = unmarked_manifests(alloc, manifests, staying.as_slice())?;
    Ok(gone)
}

// Marks for the manifests that stay, where these digests have a kept tag.
fn staying(
    alloc: Global,
    manifests: &[ManifestRow],
    tagged: &BTreeSet<Digest>,
    moment: u64,
    delay: u64,
) -> Result<Vec<bool>, AllocError>
    requires { Ascend (digests manifests.now) }
    ensures { IfOk result (λ marks. AreLeast (is_root (contains byte_cmp tagged.now) moment delay) manifests.now marks.items) }
{
    let mut state = Staying::new(alloc, manifests.len())?;
    mark_roots(&mut state, manifests, tagged, moment, delay)?;
    mark_descendants(&mut state, manifests)?;
    Ok(state.marks)
}
