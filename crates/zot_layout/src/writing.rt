//! What a row writes of a repository: its index and its marker.
ghost use Rattle.std.specs.Prelude.{◌≡◌, Some, None, OnErr, OnOk};
ghost use Rattle.zot_outside.specs.Faults.{HasStoreCause, OnMissing};
ghost use Rattle.zot_outside.specs.Objects.{ChangesAt, Keeps, Makes, Puts, Told, with_object};
ghost use Rattle.zot_layout.specs.Marker.{marker_text};
ghost use Rattle.zot_layout.specs.Paths.{index_path, marker_path};
ghost use Rattle.zot_layout.specs.State.{IsIndex, as_written};
ghost use Rattle.zot_layout.specs.Text.{index_text};
ghost use Rattle.zot_layout.specs.Writing.{IsUnknown, KeepsLayouts, PutsIndex, SetsLayout};

use crate::index_state::IndexState;
use crate::marker::marker_text;
use crate::paths::{index_path, marker_path};
use crate::text::index_text;
use std::alloc::Global;
use zot_names::RepoName;
use zot_outside::{Store, StoreError, StoreResult};

/// Puts the index of a repository, the object `NAME/index.json`, in one call of the store. A repository that is known has then what the index says, and one that isn't stays as it is.
///
/// After an `Err` no object has changed. `Failed` comes only where the store failed.
pub fn put_index<S: Store>(
    part: &mut S,
    alloc: Global,
    name: &RepoName,
    state: &IndexState,
) -> StoreResult<()>
    ensures cause { HasStoreCause (S.faults part.old) (S.faults part.new) result }
    ensures puts { OnOk result (Puts (S.objects part.old) (index_path name.now) (index_text state.now) (S.objects part.new)) }
    ensures ok { IsIndex state.now → OnOk result (Told (S.objects part.old) (S.objects part.new) (λ old new. PutsIndex old name.now (as_written state.now) new)) }
    ensures err { OnErr result (Keeps (S.objects part.old) (S.objects part.new)) }
    ensures missing { OnMissing result ⊥ }
{
    let path = index_path(alloc, name.as_str())?;
    let text = index_text(alloc, state)?;
    part.put(alloc, path.as_str(), text.as_slice())
}

/// Makes a repository known: puts its index, and then its marker, the object `NAME/oci-layout`. The marker decides.
///
/// After an `Err` a repository that wasn't known still isn't, though its index may have been put. `Failed` comes only where the store failed.
pub fn make_known<S: Store>(
    part: &mut S,
    alloc: Global,
    name: &RepoName,
    state: &IndexState,
) -> StoreResult<()>
    ensures cause { HasStoreCause (S.faults part.old) (S.faults part.new) result }
    ensures puts { OnOk result (Makes (S.objects part.old) (λ objects. with_object (with_object objects (index_path name.now) (index_text state.now)) (marker_path name.now) marker_text) (S.objects part.new)) }
    ensures ok { IsIndex state.now → OnOk result (Told (S.objects part.old) (S.objects part.new) (λ old new. SetsLayout old name.now (Some (as_written state.now)) new)) }
    ensures err { OnErr result (Told (S.objects part.old) (S.objects part.new) (λ old new. IsUnknown old name.now → KeepsLayouts old name.now new)) }
    ensures missing { OnMissing result ⊥ }
{
    let path = marker_path(alloc, name.as_str())?;
    put_index(part, alloc, name, state)?;
    part.put(alloc, path.as_str(), marker_text().as_bytes())
}

/// Deletes the marker of a repository, if there is one: the repository isn't known then, and its index says nothing.
///
/// After an `Err` no object has changed. `Failed` comes only where the store failed.
pub fn forget<S: Store>(part: &mut S, alloc: Global, name: &RepoName) -> StoreResult<()>
    ensures cause { HasStoreCause (S.faults part.old) (S.faults part.new) result }
    ensures deletes { OnOk result (Told (S.objects part.old) (S.objects part.new) (λ old new. ChangesAt old (marker_path name.now) None new)) }
    ensures ok { OnOk result (Told (S.objects part.old) (S.objects part.new) (λ old new. SetsLayout old name.now None new)) }
    ensures err { OnErr result (Keeps (S.objects part.old) (S.objects part.new)) }
    ensures missing { OnMissing result ⊥ }
{
    let path = marker_path(alloc, name.as_str())?;
    delete_at(part, alloc, path.as_str())
}

// Deletes the object at a path, if there is one.
fn delete_at<S: Store>(part: &mut S, alloc: Global, path: &str) -> StoreResult<()>
    ensures cause { HasStoreCause (S.faults part.old) (S.faults part.new) result }
    ensures ok { OnOk result (Told (S.objects part.old) (S.objects part.new) (λ old new. ChangesAt old path.now None new)) }
    ensures err { OnErr result (Keeps (S.objects part.old) (S.objects part.new)) }
    ensures missing { OnMissing result ⊥ }
{
    match part.delete(alloc, path) {
        Err(StoreError::Missing) => Ok(()),
        deleted => deleted,
    }
}
