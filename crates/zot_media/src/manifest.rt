//! Manifests read from their bytes.
ghost use Rattle.std.specs.Prelude.{◌≡◌, IfOk};
ghost use Rattle.serde_json.specs.Find.{get};
ghost use Rattle.serde_json.specs.View.{view};
ghost use Rattle.zot_media.specs.Answers.{IsRead};
ghost use Rattle.zot_media.specs.Manifest.{artifact_of, children_of, image_references, is_headed, is_image, may_be, reading, reading_of, references_of, stored_reading, subject_of};

use crate::annotations::read_annotations;
use crate::descriptor::Descriptor;
use crate::descriptor_list::DescriptorList;
use crate::descriptors::{read_descriptor, read_descriptors};
use crate::fields::{given, read_document, read_words, whole_of};
use crate::media::Media;
use crate::media_error::MediaError;
use crate::reading::Reading;
use serde_json::Value;
use std::alloc::{AllocError, Global};
use zot_digest::Words;

/// What the bytes say, if they are a manifest of the media (OCI Image Specification 1.1, "Image Manifest" and "Image Index"; Docker's image manifest and manifest list, version 2, schema 2). `Bad` comes exactly where they aren't, `NoMemory` only where memory runs out.
#[tactic(auto, unfolding(crate::specs::Manifest::reading))]
pub fn read_manifest(alloc: Global, media: Media, bytes: &[u8]) -> Result<Reading, MediaError>
    ensures { IsRead result (reading media bytes.now) }
{
    let document = read_document(alloc, bytes)?;
    if is_headed(media, &document) {
        read_parts(alloc, media, &document)
    } else {
        Err(MediaError::Bad)
    }
}

/// What a stored manifest says: one whose bytes have no reading says nothing. It fails only where memory does.
pub fn read_stored(alloc: Global, media: Media, bytes: &[u8]) -> Result<Reading, AllocError>
    ensures { IfOk result (λ found. found ≡ stored_reading media bytes.now) }
{
    match read_manifest(alloc, media, bytes) {
        Ok(found) => Ok(found),
        Err(MediaError::Bad) => Ok(Reading::empty(alloc)),
        Err(MediaError::NoMemory) => Err(AllocError),
    }
}

// Whether the document has the version 2, and says no other media than these.
#[tactic(auto, unfolding(crate::specs::Manifest::is_headed))]
fn is_headed(media: Media, document: &Value) -> bool
    ensures { result ≡ is_headed media (view document.now) }
{
    whole_of(document, "schemaVersion") == Some(2) && may_be(document, "mediaType", media.text())
}

// Whether a field is missing or that text.
fn may_be(document: &Value, name: &str, text: &str) -> bool
    ensures { result ≡ may_be text.now (get name.now (view document.now)) }
{
    match document.get(name) {
        Some(field) => field.as_str() == Some(text),
        None => true,
    }
}

// What a document of the media says.
#[tactic(auto, unfolding(crate::specs::Manifest::reading_of))]
fn read_parts(alloc: Global, media: Media, document: &Value) -> Result<Reading, MediaError>
    ensures { IsRead result (reading_of media (view document.now)) }
{
    let references = read_references(alloc, media, document)?;
    let children = read_children(alloc, media, document)?;
    let subject = read_subject(alloc, document)?;
    let artifact = read_artifact(alloc, document)?;
    let annotations = read_annotations(alloc, document)?;
    Ok(Reading {
        references,
        children,
        subject,
        artifact,
        annotations,
    })
}

// Whether media are those of an image's manifest.
fn is_image(media: Media) -> bool
    ensures { result ≡ is_image media }
{
    match media {
        Media::Image | Media::DockerImage => true,
        Media::Index | Media::DockerList => false,
    }
}

// The config and the layers of an image.
#[tactic(auto, unfolding(crate::specs::Manifest::references_of))]
fn read_references(
    alloc: Global,
    media: Media,
    document: &Value,
) -> Result<DescriptorList, MediaError>
    ensures { IsRead result (references_of media (view document.now)) }
{
    if is_image(media) {
        read_image(alloc, document)
    } else {
        Ok(DescriptorList::new(Vec::new(alloc)))
    }
}

// The config and then the layers.
#[tactic(auto, unfolding(crate::specs::Manifest::image_references))]
fn read_image(alloc: Global, document: &Value) -> Result<DescriptorList, MediaError>
    ensures { IsRead result (image_references (view document.now)) }
{
    let Some(field) = document.get("config") else {
        return Err(MediaError::Bad);
    };
    let config = read_descriptor(alloc, field)?;
    let layers = read_descriptors(alloc, document, "layers")?;
    let mut references = layers.into_vec();
    references.insert(0, config)?;
    Ok(DescriptorList::new(references))
}

// The manifests of an index.
#[tactic(auto, unfolding(crate::specs::Manifest::children_of))]
fn read_children(
    alloc: Global,
    media: Media,
    document: &Value,
) -> Result<DescriptorList, MediaError>
    ensures { IsRead result (children_of media (view document.now)) }
{
    if is_image(media) {
        Ok(DescriptorList::new(Vec::new(alloc)))
    } else {
        read_descriptors(alloc, document, "manifests")
    }
}

// The manifest that this one says something of.
#[tactic(auto, unfolding(crate::specs::Manifest::subject_of))]
fn read_subject(alloc: Global, document: &Value) -> Result<Option<Descriptor>, MediaError>
    ensures { IsRead result (subject_of (view document.now)) }
{
    match given(document, "subject") {
        Some(field) => Ok(Some(read_descriptor(alloc, field)?)),
        None => Ok(None),
    }
}

// The type of an artifact.
#[tactic(auto, unfolding(crate::specs::Manifest::artifact_of))]
fn read_artifact(alloc: Global, document: &Value) -> Result<Option<Words>, MediaError>
    ensures { IsRead result (artifact_of (view document.now)) }
{
    match document.get("artifactType") {
        Some(field) => Ok(Some(read_words(alloc, field)?)),
        None => Ok(None),
    }
}
