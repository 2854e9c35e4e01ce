//! The descriptors of an index.
ghost use Rattle.std.specs.Prelude.{◌≡◌, ◌++◌, List, decimal, IfOk, OnOk, map, option_copied, string_bytes};
ghost use Rattle.std.specs.List.{flat_map};
ghost use Rattle.serde_json.specs.View.{view};
ghost use Rattle.zot_layout.specs.Text.{descriptor_with, descriptors_of, tagged, tagged_notes, untagged, untagged_notes};
ghost use Rattle.zot_layout.specs.Groups.{IsGroup};
ghost use Rattle.zot_layout.specs.State.{written_size};
ghost use Rattle.zot_layout.specs.declared.index_tag.IndexTag.{IndexTag as ATag};

use crate::groups::group_tags;
use crate::index_manifest::IndexManifest;
use crate::index_tag::IndexTag;
use serde_json::{Value, json};
use std::alloc::{AllocError, Global};

/// The greatest size that is written: the greatest whole number that 63 bits hold.
const GREATEST_SIZE: u64 = 9_223_372_036_854_775_807;

/// The descriptors of manifests in their order, one for each of their tags, in the order of these, or one without a tag.
pub fn descriptors(
    alloc: Global,
    manifests: &[IndexManifest],
    tags: &[IndexTag],
) -> Result<Vec<Value>, AllocError>
    ensures { IfOk result (λ descriptors. map view descriptors.items ≡ flat_map (descriptors_of tags.now) manifests.now) }
{
    let groups = group_tags(alloc, tags)?;
    let mut descriptors = Vec::new(alloc);
    for manifest in manifests {
        let group = groups.get(&manifest.digest);
        add_manifest(alloc, &mut descriptors, manifest, group)?;
    }
    Ok(descriptors)
}

// Adds the descriptors of a manifest, whose tags are grouped.
fn add_manifest(
    alloc: Global,
    descriptors: &mut Vec<Value>,
    manifest: &IndexManifest,
    group: Option<&Vec<&IndexTag>>,
) -> Result<(), AllocError>
    ensures { OnOk result ((tags : List ATag) → IsGroup tags manifest.now.digest (option_copied group.entry)
        → map view descriptors.new.items ≡ map view descriptors.old.items ++ descriptors_of tags manifest.now) }
{
    match group {
        Some(group) => add_tagged(alloc, descriptors, manifest, group.as_slice()),
        None => {
            descriptors.push(untagged(alloc, manifest)?)?;
            Ok(())
        }
    }
}

// Adds a descriptor for each of a manifest's tags.
fn add_tagged(
    alloc: Global,
    descriptors: &mut Vec<Value>,
    manifest: &IndexManifest,
    tags: &[&IndexTag],
) -> Result<(), AllocError>
    ensures { OnOk result (map view descriptors.new.items
        ≡ map view descriptors.old.items ++ map (λ tag. tagged manifest.now tag.now) tags.now) }
{
    for tag in tags {
        descriptors.push(tagged(alloc, manifest, tag)?)?;
    }
    Ok(())
}

// The descriptor of a manifest without a tag.
fn untagged(alloc: Global, manifest: &IndexManifest) -> Result<Value, AllocError>
    ensures { IfOk result (λ value. view value ≡ untagged manifest.now) }
{
    let notes = untagged_notes(alloc, manifest)?;
    descriptor_with(alloc, notes, manifest)
}

// The descriptor of a manifest under a tag.
fn tagged(alloc: Global, manifest: &IndexManifest, tag: &IndexTag) -> Result<Value, AllocError>
    ensures { IfOk result (λ value. view value ≡ tagged manifest.now tag.now) }
{
    let notes = tagged_notes(alloc, manifest, tag)?;
    descriptor_with(alloc, notes, manifest)
}

// The annotations of a manifest without a tag.
#[tactic(auto, unfolding(crate::specs::Text::untagged_notes))]
fn untagged_notes(alloc: Global, manifest: &IndexManifest) -> Result<Value, AllocError>
    ensures { IfOk result (λ value. view value ≡ untagged_notes manifest.now) }
{
    let arrived = decimal_text(alloc, manifest.arrived)?;
    json!(in alloc; {"zot.cluster.arrived": arrived})
}

// The annotations of a manifest under a tag.
#[tactic(auto, unfolding(crate::specs::Text::tagged_notes))]
fn tagged_notes(
    alloc: Global,
    manifest: &IndexManifest,
    tag: &IndexTag,
) -> Result<Value, AllocError>
    ensures { IfOk result (λ value. view value ≡ tagged_notes manifest.now tag.now) }
{
    let arrived = decimal_text(alloc, manifest.arrived)?;
    let pushed = decimal_text(alloc, tag.pushed)?;
    json!(in alloc; {
        "org.opencontainers.image.ref.name": tag.tag.as_str(),
        "zot.cluster.arrived": arrived,
        "zot.cluster.pushed": pushed
    })
}

// The descriptor of a manifest with these annotations.
#[tactic(auto, unfolding(crate::specs::Text::descriptor_with))]
fn descriptor_with(
    alloc: Global,
    notes: Value,
    manifest: &IndexManifest,
) -> Result<Value, AllocError>
    ensures { IfOk result (λ value. view value ≡ descriptor_with (view notes) manifest.now) }
{
    let digest = manifest.digest.text(alloc)?;
    let media = manifest.media.text();
    let size = written_size(manifest.size);
    json!(in alloc; {"annotations": notes, "digest": digest, "mediaType": media, "size": size})
}

// A size as it is written.
fn written_size(size: u64) -> u64
    ensures { result ≡ written_size size }
{
    size.min(GREATEST_SIZE)
}

// The decimal text of a number.
fn decimal_text(alloc: Global, number: u64) -> Result<String, AllocError>
    ensures { IfOk result (λ text. string_bytes text ≡ decimal number) }
{
    Value::from(number).to_string(alloc)
}
