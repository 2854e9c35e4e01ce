//! The text of an index.
ghost use Rattle.std.specs.Prelude.{◌≡◌, ◌≤◌, ℕ, List, false, Some, Ok, IfOk, string_bytes};
ghost use Rattle.serde_json.specs.Data.{Items, array, items_depth};
ghost use Rattle.serde_json.specs.View.{items_view, view};
ghost use Rattle.serde_json.specs.Written.{compact_text, items_have_float};
ghost use Rattle.zot_media.specs.Fields.{document};
ghost use Rattle.zot_layout.specs.Reading.{meaning};
ghost use Rattle.zot_layout.specs.State.{IsIndex, as_written};
ghost use Rattle.zot_layout.specs.Text.{index_text, index_with};

use crate::descriptors::descriptors;
use crate::index_state::IndexState;
use serde_json::{Value, json};
use std::alloc::{AllocError, Global};
use zot_media::Media;

/// The text of the index that holds a state: compact JSON with its keys in byte order, and a size above 2^63 - 1 as that number. Where the state's lists ascend, and each tag is one of a listed manifest, the text is read back as this state, with its sizes as they are written, at any moment. It fails only where memory runs out.
pub fn index_text(alloc: Global, state: &IndexState) -> Result<Vec<u8>, AllocError>
    ensures text { IfOk result (λ text. text.items ≡ index_text state.now) }
    ensures comes_back { IfOk result (λ text. IsIndex state.now → (path : List ℕ) (moment : ℕ) → meaning path text.items moment ≡ Ok (as_written state.now)) }
{
    let descriptors = descriptors(alloc, state.manifests.as_slice(), state.tags.as_slice())?;
    let text = text_with(alloc, descriptors)?;
    Ok(text.into_bytes())
}

// The text of the index with these descriptors.
fn text_with(alloc: Global, descriptors: Vec<Value>) -> Result<String, AllocError>
    requires plain { items_have_float (items_view descriptors.items) ≡ false }
    requires shallow { items_depth (items_view descriptors.items) ≤ 2 }
    ensures text { IfOk result (λ text. string_bytes text ≡ compact_text (index_with (items_view descriptors.items))) }
    ensures comes_back { IfOk result (λ text. document (string_bytes text) ≡ Some (index_with (items_view descriptors.items))) }
{
    let value = index_with(alloc, Value::Array(descriptors))?;
    value.to_string(alloc)
}

// The index with these descriptors.
#[tactic(auto, unfolding(crate::specs::Text::index_with))]
fn index_with(alloc: Global, descriptors: Value) -> Result<Value, AllocError>
    ensures { (items : Items) → view descriptors ≡ array items → IfOk result (λ value. view value ≡ index_with items) }
{
    let media = Media::Index.text();
    json!(in alloc; {
        "annotations": {"zot.cluster.version": "1"},
        "manifests": descriptors,
        "mediaType": media,
        "schemaVersion": 2
    })
}
