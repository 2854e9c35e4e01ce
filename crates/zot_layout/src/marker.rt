//! The marker of an image layout.
ghost use Rattle.std.specs.Prelude.{◌≡◌, IfOk};
ghost use Rattle.zot_layout.specs.Marker.{is_marker, marker_meaning, marker_text};
ghost use Rattle.zot_layout.specs.Reading.{IsJust};

use crate::layout_error::LayoutError;
use crate::reading::bad_index;
use std::alloc::{AllocError, Global};
use zot_media::{MediaError, read_document, text_of};

/// The text of the marker, the file `oci-layout` (OCI Image Specification 1.1, "Image Layout"). Takes no memory.
#[tactic(auto, unfolding(crate::specs::Marker::marker_text))]
pub fn marker_text() -> &'static str
    ensures { result.now ≡ marker_text }
{
    "{\"imageLayoutVersion\":\"1.0.0\"}"
}

/// Reads the marker under a path. `BadIndex` comes exactly where the bytes aren't an object whose `imageLayoutVersion` is `1.0.0`, and carries both. It fails else only where memory runs out.
pub fn read_marker(alloc: Global, path: &str, bytes: &[u8]) -> Result<(), LayoutError>
    ensures { IsJust result (marker_meaning path.now bytes.now) }
{
    if is_marker(alloc, bytes)? {
        Ok(())
    } else {
        Err(bad_index(alloc, path, bytes)?)
    }
}

// Whether the bytes are a marker.
#[tactic(auto, unfolding(crate::specs::Marker::is_marker))]
fn is_marker(alloc: Global, bytes: &[u8]) -> Result<bool, AllocError>
    ensures { IfOk result (λ is. is ≡ is_marker bytes.now) }
{
    match read_document(alloc, bytes) {
        Ok(document) => Ok(text_of(&document, "imageLayoutVersion") == Some("1.0.0")),
        Err(MediaError::Bad) => Ok(false),
        Err(MediaError::NoMemory) => Err(AllocError),
    }
}
