//! Annotations read from a document.
ghost use Rattle.std.specs.Prelude.{◌≡◌};
ghost use Rattle.serde_json.specs.View.{members_view, view};
ghost use Rattle.zot_media.specs.Answers.{IsRead};
ghost use Rattle.zot_media.specs.Fields.{each, pairs_of};
ghost use Rattle.zot_media.specs.Manifest.{annotation_of, annotations_of};

use crate::annotation::Annotation;
use crate::annotation_list::AnnotationList;
use crate::fields::{given, read_words};
use crate::media_error::MediaError;
use serde_json::{Map, Value};
use std::alloc::Global;
use zot_digest::Words;

/// The annotations, in byte order of their keys.
#[tactic(auto, unfolding(crate::specs::Manifest::annotations_of))]
pub fn read_annotations(alloc: Global, document: &Value) -> Result<AnnotationList, MediaError>
    ensures { IsRead result (annotations_of (view document.now)) }
{
    let Some(field) = given(document, "annotations") else {
        return Ok(AnnotationList::new(Vec::new(alloc)));
    };
    match field.as_object() {
        Some(members) => read_members(alloc, members),
        None => Err(MediaError::Bad),
    }
}

// The annotations that an object's members are.
fn read_members(alloc: Global, members: &Map<String, Value>) -> Result<AnnotationList, MediaError>
    ensures { IsRead result (each annotation_of (pairs_of (members_view members.now.entries))) }
{
    let mut annotations = Vec::with_capacity(alloc, members.len())?;
    for (key, value) in members {
        annotations.push(read_annotation(alloc, key.as_str(), value)?)?;
    }
    Ok(AnnotationList::new(annotations))
}

// The annotation of a key and a value.
#[tactic(auto, unfolding(crate::specs::Manifest::annotation_of))]
fn read_annotation(alloc: Global, key: &str, value: &Value) -> Result<Annotation, MediaError>
    ensures { IsRead result (annotation_of (key.now, view value.now)) }
{
    let text = read_words(alloc, value)?;
    let key = Words::new(String::from_str(alloc, key)?);
    Ok(Annotation { key, text })
}
