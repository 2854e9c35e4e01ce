//! Indexes read from their bytes.
ghost use Rattle.std.specs.Prelude.{◌≡◌, Some, IfOk};
ghost use Rattle.std.specs.List.{list_all};
ghost use Rattle.serde_json.specs.View.{view};
ghost use Rattle.zot_layout.specs.Reading.{IsJust, has_version, may_stand, meaning, meaning_in, meaning_of};
ghost use Rattle.zot_layout.specs.declared.layout_error.LayoutError.TheVariants.{BadIndex, BadMeta};

use crate::index_state::IndexState;
use crate::layout_error::LayoutError;
use crate::listed::Listed;
use crate::listing::read_listing;
use crate::notes::note_of;
use crate::sorting::state_of;
use serde_json::Value;
use std::alloc::{AllocError, Global};
use zot_digest::{Bytes, Words};
use zot_media::{MediaError, read_document};

/// What the bytes of an index mean at a moment, in seconds, which stands for the moments that the index doesn't say.
///
/// `BadIndex` comes exactly where the bytes aren't an object with `schemaVersion` 2 and a list `manifests` of descriptors, and `BadMeta` exactly where they are, and the annotation `zot.cluster.version` of the index isn't `1`, or one of `zot.cluster.arrived` and `zot.cluster.pushed` of a descriptor isn't 1 to 20 decimal digits of a number that 64 bits hold. Both carry the path and the bytes. Descriptors of media that aren't accepted, and names that are no tags, are ignored. It fails else only where memory runs out.
pub fn read_index(
    alloc: Global,
    path: &str,
    bytes: &[u8],
    moment: u64,
) -> Result<IndexState, LayoutError>
    ensures { IsJust result (meaning path.now bytes.now moment) }
{
    match read_document(alloc, bytes) {
        Ok(document) => read_in(alloc, path, bytes, moment, &document),
        Err(MediaError::Bad) => Err(bad_index(alloc, path, bytes)?),
        Err(MediaError::NoMemory) => Err(LayoutError::NoMemory),
    }
}

// What a document means.
fn read_in(
    alloc: Global,
    path: &str,
    bytes: &[u8],
    moment: u64,
    document: &Value,
) -> Result<IndexState, LayoutError>
    ensures { IsJust result (meaning_in path.now bytes.now moment (Some (view document.now))) }
{
    let version = has_version(document);
    match read_listing(alloc, document) {
        Ok(listed) => read_state(alloc, path, bytes, moment, version, listed.as_slice()),
        Err(MediaError::Bad) => Err(bad_index(alloc, path, bytes)?),
        Err(MediaError::NoMemory) => Err(LayoutError::NoMemory),
    }
}

// What descriptors mean, where the version of the annotations may stand or not.
fn read_state(
    alloc: Global,
    path: &str,
    bytes: &[u8],
    moment: u64,
    version: bool,
    listed: &[Listed],
) -> Result<IndexState, LayoutError>
    ensures { IsJust result (meaning_of path.now bytes.now moment version (Some listed.now)) }
{
    if version && may_all_stand(listed) {
        Ok(state_of(alloc, moment, listed)?)
    } else {
        Err(bad_meta(alloc, path, bytes)?)
    }
}

// Whether the version of the annotations is missing or 1.
#[tactic(auto, unfolding(crate::specs::Reading::has_version))]
fn has_version(document: &Value) -> bool
    ensures { result ≡ has_version (view document.now) }
{
    match note_of(document, "zot.cluster.version") {
        Some(version) => version.as_str() == Some("1"),
        None => true,
    }
}

// Whether the moments of all descriptors may stand.
fn may_all_stand(listed: &[Listed]) -> bool
    ensures { result ≡ list_all may_stand listed.now }
{
    listed.iter().all(|one| one.may_stand())
}

/// That the bytes under a path are no index or marker.
pub fn bad_index(alloc: Global, path: &str, bytes: &[u8]) -> Result<LayoutError, AllocError>
    ensures { IfOk result (λ error. error ≡ BadIndex path.now bytes.now) }
{
    let path = Words::new(String::from_str(alloc, path)?);
    let text = Bytes::new(Vec::from_slice(alloc, bytes)?);
    Ok(LayoutError::BadIndex { path, text })
}

// That the index under a path has a moment or a version that isn't one.
fn bad_meta(alloc: Global, path: &str, bytes: &[u8]) -> Result<LayoutError, AllocError>
    ensures { IfOk result (λ error. error ≡ BadMeta path.now bytes.now) }
{
    let path = Words::new(String::from_str(alloc, path)?);
    let text = Bytes::new(Vec::from_slice(alloc, bytes)?);
    Ok(LayoutError::BadMeta { path, text })
}
