//! The manifests that an index lists.
ghost use Rattle.std.specs.Prelude.{◌≡◌, codes, map, option_map};
ghost use Rattle.serde_json.specs.Find.{as_array};
ghost use Rattle.serde_json.specs.View.{view};
ghost use Rattle.zot_media.specs.Answers.{IsRead};
ghost use Rattle.zot_media.specs.Fields.{each, values_of, whole_of};
ghost use Rattle.zot_media.specs.Manifest.{is_two};
ghost use Rattle.zot_layout.specs.Notes.{listed_of};
ghost use Rattle.zot_layout.specs.Reading.{items_in, listed_in};

use crate::listed::ListedAll;
use crate::notes::read_listed;
use serde_json::Value;
use std::alloc::Global;
use zot_media::{MediaError, whole_of};

/// What the descriptors of an index say. `Bad` comes exactly where the document is no index: an object with the version 2 and a list of descriptors.
#[tactic(auto, unfolding(crate::specs::Reading::listed_in))]
pub fn read_listing(alloc: Global, document: &Value) -> Result<ListedAll, MediaError>
    ensures { IsRead result (listed_in (view document.now)) }
{
    if !is_second(document) {
        return Err(MediaError::Bad);
    }
    match items_in(document) {
        Some(items) => read_each(alloc, items),
        None => Err(MediaError::Bad),
    }
}

// Whether the document has the version 2.
fn is_second(document: &Value) -> bool
    ensures { result ≡ is_two (whole_of (codes "schemaVersion") (view document.now)) }
{
    whole_of(document, "schemaVersion") == Some(2)
}

// The values of the list `manifests`, where it is there.
#[tactic(auto, unfolding(crate::specs::Reading::items_in))]
fn items_in(document: &Value) -> Option<&[Value]>
    ensures { option_map (λ items. map view items.now) result ≡ items_in (view document.now) }
{
    match document.get("manifests") {
        Some(field) => values_of(field),
        None => None,
    }
}

// The values of a list.
fn values_of(field: &Value) -> Option<&[Value]>
    ensures { option_map (λ items. map view items.now) result ≡ option_map values_of (as_array (view field.now)) }
{
    match field.as_array() {
        Some(items) => Some(items.as_slice()),
        None => None,
    }
}

// What these descriptors say.
fn read_each(alloc: Global, items: &[Value]) -> Result<ListedAll, MediaError>
    ensures { IsRead result (each listed_of (map view items.now)) }
{
    let mut listed = Vec::with_capacity(alloc, items.len())?;
    for item in items {
        listed.push(read_listed(alloc, item)?)?;
    }
    Ok(ListedAll::new(listed))
}
