//! The media that a manifest's bytes name.
ghost use Rattle.std.specs.Prelude.{◌≡◌, IfOk, codes, option_and_then};
ghost use Rattle.serde_json.specs.View.{view};
ghost use Rattle.zot_media.specs.Document.{media_in};
ghost use Rattle.zot_media.specs.Fields.{text_of};
ghost use Rattle.zot_media.specs.Media.{media_named};

use crate::fields::read_document;
use crate::media::{Media, media_of};
use crate::media_error::MediaError;
use serde_json::Value;
use std::alloc::{AllocError, Global};

/// The media that the field `mediaType` of the bytes' JSON object names. It is none exactly where `serde_json` reads no object there, or the field isn't one of the accepted texts. Of a field that stands twice the last one counts, as `serde_json` reads it. It fails only where memory runs out.
#[tactic(auto, unfolding(crate::specs::Document::media_in))]
pub fn media_in(alloc: Global, bytes: &[u8]) -> Result<Option<Media>, AllocError>
    ensures { IfOk result (λ found. found ≡ media_in bytes.now) }
{
    match read_document(alloc, bytes) {
        Ok(document) => Ok(media_field(&document)),
        Err(MediaError::Bad) => Ok(None),
        Err(MediaError::NoMemory) => Err(AllocError),
    }
}

// The media that the field `mediaType` names.
#[tactic(auto, unfolding(crate::specs::Fields::text_of))]
fn media_field(document: &Value) -> Option<Media>
    ensures { result ≡ option_and_then media_named (text_of (codes "mediaType") (view document.now)) }
{
    document
        .get("mediaType")
        .and_then(Value::as_str)
        .and_then(media_of)
}
