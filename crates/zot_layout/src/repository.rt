//! The image layout of a repository in a store.
ghost use Rattle.std.specs.Prelude.{◌≡◌, IfErr, IfOk, IfSome, option_map};
ghost use Rattle.std.specs.FinMap as map;
ghost use Rattle.zot_outside.specs.Objects.{Keeps};
ghost use Rattle.zot_layout.specs.Causes.{Answers, HasLayoutCause, SaysNothing};
ghost use Rattle.zot_layout.specs.Paths.{index_path};
ghost use Rattle.zot_layout.specs.Rows.{empty_index, index_by, layout_of};
ghost use Rattle.zot_layout.specs.State.{IsIndex};

use crate::index_manifest::IndexManifestList;
use crate::index_state::IndexState;
use crate::index_tag::IndexTagList;
use crate::layout_error::LayoutError;
use crate::marker::read_marker;
use crate::paths::{index_path, marker_path};
use crate::reading::read_index;
use std::alloc::Global;
use zot_names::RepoName;
use zot_outside::{Store, StoreError, read_whole};

/// What the layout of a repository holds in a store, or `None` where its marker isn't there. A missing index is an empty one; the moment, in seconds, stands for the moments that an index doesn't say.
///
/// `BadIndex` comes exactly where the marker or the index has no meaning, and `BadMeta` exactly where a moment or the version of the index has none. `Failed` comes only where the store failed.
pub fn read_layout<S: Store>(
    alloc: Global,
    part: &mut S,
    name: &RepoName,
    moment: u64,
) -> Result<Option<IndexState>, LayoutError>
    ensures cause { HasLayoutCause (S.faults part.old) (S.faults part.new) result }
    ensures kept { Keeps (S.objects part.old) (S.objects part.new) }
    ensures told { IfSome (S.objects part.old) (λ told. Answers result (layout_of told name.now moment)) }
    ensures index { IfOk result (λ found. IfSome found IsIndex) }
{
    let path = marker_path(alloc, name.as_str())?;
    let Some(marker) = read_object(alloc, part, path.as_str())? else {
        return Ok(None);
    };
    read_marker(alloc, path.as_str(), marker.as_slice())?;
    let index = read_own_index(alloc, part, name, moment)?;
    Ok(Some(index))
}

// What the index of a repository says. A missing one is empty.
fn read_own_index<S: Store>(
    alloc: Global,
    part: &mut S,
    name: &RepoName,
    moment: u64,
) -> Result<IndexState, LayoutError>
    ensures cause { HasLayoutCause (S.faults part.old) (S.faults part.new) result }
    ensures kept { Keeps (S.objects part.old) (S.objects part.new) }
    ensures told { IfSome (S.objects part.old) (λ told. Answers result (index_by name.now moment (map.get told (index_path name.now)))) }
    ensures index { IfOk result IsIndex }
{
    let path = index_path(alloc, name.as_str())?;
    match read_object(alloc, part, path.as_str())? {
        Some(bytes) => read_index(alloc, path.as_str(), bytes.as_slice(), moment),
        None => Ok(empty_index(alloc)),
    }
}

/// An index without manifests and tags, as a new repository has it. Takes no memory.
pub fn empty_index(alloc: Global) -> IndexState
    ensures empty { result ≡ empty_index }
    ensures index { IsIndex result }
{
    IndexState {
        manifests: IndexManifestList::new(Vec::new(alloc)),
        tags: IndexTagList::new(Vec::new(alloc)),
    }
}

// The bytes of a path's object, if it is there.
fn read_object<S: Store>(
    alloc: Global,
    part: &mut S,
    path: &str,
) -> Result<Option<Vec<u8>>, LayoutError>
    ensures cause { HasLayoutCause (S.faults part.old) (S.faults part.new) result }
    ensures kept { Keeps (S.objects part.old) (S.objects part.new) }
    ensures told { IfSome (S.objects part.old) (λ told. IfOk result (λ found. map.get told path.now ≡ option_map (λ bytes. bytes.items) found)) }
    ensures error { IfErr result SaysNothing }
{
    match read_whole(part, alloc, path) {
        Ok(bytes) => Ok(Some(bytes)),
        Err(StoreError::Missing) => Ok(None),
        Err(StoreError::Failed) => Err(LayoutError::Failed),
        Err(StoreError::NoMemory) => Err(LayoutError::NoMemory),
    }
}
