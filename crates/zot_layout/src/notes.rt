//! Annotations of descriptors and of an index.
ghost use Rattle.std.specs.Prelude.{◌≡◌, IfOk, option_map};
ghost use Rattle.serde_json.specs.View.{view};
ghost use Rattle.zot_media.specs.Answers.{IsRead};
ghost use Rattle.zot_layout.specs.Notes.{listed_of, note_of, tag_in, tag_named};

use crate::listed::Listed;
use crate::moment::moment_of;
use serde_json::Value;
use std::alloc::{AllocError, Global};
use zot_media::{MediaError, media_of, read_descriptor};
use zot_names::{NameError, Tag};

/// The annotation of a key, where the field `annotations` is an object that has it.
#[tactic(auto, unfolding(crate::specs::Notes::note_of))]
pub fn note_of<'a>(value: &'a Value, key: &str) -> Option<&'a Value>
    ensures { option_map (λ note. view note.now) result ≡ note_of key.now (view value.now) }
{
    let Some(notes) = value.get("annotations") else {
        return None;
    };
    notes.get(key)
}

/// The manifest that a descriptor lists. `Bad` comes exactly where the value is no descriptor.
#[tactic(auto, unfolding(crate::specs::Notes::listed_of))]
pub fn read_listed(alloc: Global, value: &Value) -> Result<Listed, MediaError>
    ensures { IsRead result (listed_of (view value.now)) }
{
    let descriptor = read_descriptor(alloc, value)?;
    let tag = tag_in(alloc, value)?;
    Ok(Listed {
        digest: descriptor.digest,
        media: media_of(descriptor.media.as_str()),
        size: descriptor.size,
        tag,
        arrived: moment_of(note_of(value, "zot.cluster.arrived")),
        pushed: moment_of(note_of(value, "zot.cluster.pushed")),
    })
}

// The tag that a descriptor names.
#[tactic(auto, unfolding(crate::specs::Notes::tag_in))]
fn tag_in(alloc: Global, value: &Value) -> Result<Option<Tag>, AllocError>
    ensures { IfOk result (λ tag. tag ≡ tag_in (view value.now)) }
{
    match note_of(value, "org.opencontainers.image.ref.name").and_then(Value::as_str) {
        Some(text) => tag_named(alloc, text),
        None => Ok(None),
    }
}

// The tag that a text is, if it is one.
fn tag_named(alloc: Global, text: &str) -> Result<Option<Tag>, AllocError>
    ensures { IfOk result (λ tag. tag ≡ tag_named text.now) }
{
    match Tag::read(alloc, text) {
        Ok(tag) => Ok(Some(tag)),
        Err(NameError::Bad) => Ok(None),
        Err(NameError::NoMemory) => Err(AllocError),
    }
}
