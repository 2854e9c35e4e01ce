//! The text of a list of referrers.
ghost use Rattle.std.specs.Prelude.{◌≡◌, IfOk, List, OnOk, map, option_map, string_bytes};
ghost use Rattle.serde_json.specs.Data.{Items, array, no_members, put};
ghost use Rattle.serde_json.specs.View.{members_view, view};
ghost use Rattle.serde_json.specs.Written.{compact_text};
ghost use Rattle.zot_media.specs.Referrers.{Referrer, descriptor_value, plain_members, referrer_of, referrers_value, with_annotations, with_each, with_type};
ghost use Rattle.zot_referrers.specs.Listing.{listing_value, pushed_as};

use serde_json::{Map, Value, json};
use std::alloc::{AllocError, Global};
use zot_digest::Digest;
use zot_manifests::Kept;
use zot_media::{Annotation, Media};

/// The text of the list of these descriptors, where they are those of manifests. It fails only where memory runs out.
pub fn listing_text(alloc: Global, descriptors: Vec<Value>) -> Result<String, AllocError>
    ensures { (referrers : List Referrer) → map view descriptors.items ≡ map descriptor_value referrers → IfOk result (λ text. string_bytes text ≡ compact_text (referrers_value referrers)) }
{
    let value = listing_value(alloc, Value::Array(descriptors))?;
    value.to_string(alloc)
}

// The index of these descriptors.
#[tactic(auto, unfolding(crate::specs::Listing::listing_value))]
fn listing_value(alloc: Global, descriptors: Value) -> Result<Value, AllocError>
    ensures { (items : Items) → view descriptors ≡ array items → IfOk result (λ value. view value ≡ listing_value items) }
{
    let media = Media::Index.text();
    json!(in alloc; {"manifests": descriptors, "mediaType": media, "schemaVersion": 2})
}

/// The descriptor of a manifest that has so many bytes.
#[tactic(auto, unfolding(zot_media::specs::Referrers::descriptor_value))]
pub fn descriptor(
    alloc: Global,
    digest: &Digest,
    size: u64,
    kept: &Kept,
) -> Result<Value, AllocError>
    ensures { IfOk result (λ value. view value ≡ descriptor_value (referrer_of (pushed_as digest.now size kept.now))) }
{
    let mut members = plain_members(alloc, digest, size, kept.media)?;
    add_artifact(alloc, &mut members, kept.reading.artifact_type())?;
    add_annotations(alloc, &mut members, kept.reading.annotations.as_slice())?;
    Ok(Value::Object(members))
}

// Adds the artifact type, if there is one.
fn add_artifact(
    alloc: Global,
    members: &mut Map<String, Value>,
    artifact: Option<&str>,
) -> Result<(), AllocError>
    ensures { OnOk result (members_view members.new.entries ≡ with_type (option_map (λ text. text.now) artifact.entry) (members_view members.old.entries)) }
{
    let Some(artifact) = artifact else {
        return Ok(());
    };
    let text = Value::try_from_str(alloc, artifact)?;
    add(alloc, members, "artifactType", text)
}

// Adds the annotations, if there are some.
fn add_annotations(
    alloc: Global,
    members: &mut Map<String, Value>,
    annotations: &[Annotation],
) -> Result<(), AllocError>
    ensures { OnOk result (members_view members.new.entries ≡ with_annotations annotations.now (members_view members.old.entries)) }
{
    if annotations.is_empty() {
        return Ok(());
    }
    let texts = annotation_members(alloc, annotations)?;
    add(alloc, members, "annotations", Value::Object(texts))
}

// The members that each descriptor has.
fn plain_members(
    alloc: Global,
    digest: &Digest,
    size: u64,
    media: Media,
) -> Result<Map<String, Value>, AllocError>
    ensures { IfOk result (λ members. members_view members.entries ≡ plain_members digest.now media size) }
{
    let mut members = Map::new(alloc);
    add(alloc, &mut members, "size", Value::from(size))?;
    let media = Value::try_from_str(alloc, media.text())?;
    add(alloc, &mut members, "mediaType", media)?;
    let text = digest.text(alloc)?;
    add(alloc, &mut members, "digest", Value::String(text))?;
    Ok(members)
}

// The annotations as an object's members.
fn annotation_members(
    alloc: Global,
    annotations: &[Annotation],
) -> Result<Map<String, Value>, AllocError>
    ensures { IfOk result (λ members. members_view members.entries ≡ with_each no_members annotations.now) }
{
    let mut members = Map::new(alloc);
    for annotation in annotations {
        let text = Value::try_from_str(alloc, annotation.text.as_str())?;
        add(alloc, &mut members, annotation.key.as_str(), text)?;
    }
    Ok(members)
}

// Adds a member to an object's.
fn add(
    alloc: Global,
    members: &mut Map<String, Value>,
    key: &str,
    value: Value,
) -> Result<(), AllocError>
    ensures { OnOk result (members_view members.new.entries ≡ put key.now (view value) (members_view members.old.entries)) }
{
    members.insert(String::from_str(alloc, key)?, value)?;
    Ok(())
}
