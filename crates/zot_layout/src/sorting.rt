//! The manifests and tags of descriptors, in order.
ghost use Rattle.std.specs.Prelude.{◌≡◌, [], IfOk, OnOk, map};
ghost use Rattle.zot_layout.specs.Reading.{manifest_of, state_of, tag_by, tag_of, with_manifest, with_manifests, with_tag, with_tags};

use crate::index_manifest::{IndexManifest, IndexManifestList};
use crate::index_state::IndexState;
use crate::index_tag::{IndexTag, IndexTagList};
use crate::listed::Listed;
use crate::parts::{ManifestPart, TagPart};
use std::alloc::{AllocError, Global};
use std::collections::BTreeMap;
use zot_digest::Digest;
use zot_names::Tag;

/// The state that these descriptors make; the moment stands for those that aren't there. Of one digest or one tag the last descriptor counts.
pub fn state_of(alloc: Global, moment: u64, listed: &[Listed]) -> Result<IndexState, AllocError>
    ensures { IfOk result (λ state. state ≡ state_of moment listed.now) }
{
    let manifests = manifests_of(alloc, sorted_manifests(alloc, moment, listed)?)?;
    let tags = tags_of(alloc, sorted_tags(alloc, moment, listed)?)?;
    Ok(IndexState { manifests, tags })
}

// The manifests by their digests.
fn sorted_manifests(
    alloc: Global,
    moment: u64,
    listed: &[Listed],
) -> Result<BTreeMap<Digest, ManifestPart>, AllocError>
    ensures { IfOk result (λ tree. tree.entries ≡ with_manifests moment [] listed.now) }
{
    let mut tree = BTreeMap::new(alloc);
    for one in listed {
        add_manifest(&mut tree, moment, one)?;
    }
    Ok(tree)
}

// Adds the manifest of a descriptor, if its media are accepted.
fn add_manifest(
    tree: &mut BTreeMap<Digest, ManifestPart>,
    moment: u64,
    listed: &Listed,
) -> Result<(), AllocError>
    ensures { OnOk result (tree.new.entries ≡ with_manifest moment tree.old.entries listed.now listed.now.media) }
{
    let Some(media) = listed.media else {
        return Ok(());
    };
    let part = ManifestPart {
        media,
        size: listed.size,
        arrived: listed.arrived.or(moment),
    };
    tree.insert(listed.digest, part)?;
    Ok(())
}

// The tags by their texts.
fn sorted_tags(
    alloc: Global,
    moment: u64,
    listed: &[Listed],
) -> Result<BTreeMap<Tag, TagPart>, AllocError>
    ensures { IfOk result (λ tree. tree.entries ≡ with_tags moment [] listed.now) }
{
    let mut tree = BTreeMap::new(alloc);
    for one in listed {
        add_tag(alloc, &mut tree, moment, one)?;
    }
    Ok(tree)
}

// Adds the tag of a descriptor, if it has one and its media are accepted.
fn add_tag(
    alloc: Global,
    tree: &mut BTreeMap<Tag, TagPart>,
    moment: u64,
    listed: &Listed,
) -> Result<(), AllocError>
    ensures { OnOk result (tree.new.entries ≡ with_tag moment tree.old.entries listed.now (tag_by listed.now.tag listed.now.media)) }
{
    if listed.media.is_none() {
        return Ok(());
    }
    let Some(tag) = &listed.tag else {
        return Ok(());
    };
    let part = TagPart {
        digest: listed.digest,
        pushed: listed.pushed.or(moment),
    };
    tree.insert(tag.copy(alloc)?, part)?;
    Ok(())
}

// The manifests of a tree.
fn manifests_of(
    alloc: Global,
    tree: BTreeMap<Digest, ManifestPart>,
) -> Result<IndexManifestList, AllocError>
    ensures { IfOk result (λ manifests. manifests ≡ map manifest_of tree.entries) }
{
    let mut manifests = Vec::with_capacity(alloc, tree.len())?;
    for (digest, part) in tree {
        manifests.push(IndexManifest {
            digest,
            media: part.media,
            size: part.size,
            arrived: part.arrived,
        })?;
    }
    Ok(IndexManifestList::new(manifests))
}

// The tags of a tree.
fn tags_of(alloc: Global, tree: BTreeMap<Tag, TagPart>) -> Result<IndexTagList, AllocError>
    ensures { IfOk result (λ tags. tags ≡ map tag_of tree.entries) }
{
    let mut tags = Vec::with_capacity(alloc, tree.len())?;
    for (tag, part) in tree {
        tags.push(IndexTag {
            tag,
            digest: part.digest,
            pushed: part.pushed,
        })?;
    }
    Ok(IndexTagList::new(tags))
}
