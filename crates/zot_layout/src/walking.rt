//! The names of a row's repositories in a store, by the paths of their markers.
ghost use Rattle.std.specs.Prelude.{◌≡◌, ◌++◌, IfErr, IfOk, IfSome, OnOk, option_to_list, option_map, string_bytes};
ghost use Rattle.std.specs.List.{AllByRecursion};
ghost use Rattle.zot_outside.specs.Objects.{Follows, Keeps};
ghost use Rattle.zot_outside.specs.PathWalks.{HasRoom, last_path};
ghost use Rattle.zot_siphash.specs.Owners.{AreMembers};
ghost use Rattle.zot_layout.specs.Causes.{HasLayoutCause, SaysNothing};
ghost use Rattle.zot_layout.specs.Rows.{AreMarked, IsOfRow};
ghost use Rattle.zot_layout.specs.Walks.{IsMarkerOf};

use crate::layout_error::LayoutError;
use std::alloc::{AllocError, Global};
use zot_names::{RepoName, is_name};
use zot_outside::{PathWalk, Store, StoreError};
use zot_siphash::row_of;

/// The names of the repositories of a row that have a marker in a store, in the order of the markers' paths. The store is asked for its paths once, one after another; other paths are left alone.
pub fn marked_names<S: Store>(
    alloc: Global,
    part: &mut S,
    row: u32,
    members: u32,
    key: &[u8; 16],
) -> Result<Vec<RepoName>, LayoutError>
    requires { AreMembers members }
    ensures cause { HasLayoutCause (S.faults part.old) (S.faults part.new) result }
    ensures kept { Keeps (S.objects part.old) (S.objects part.new) }
    ensures told { IfSome (S.objects part.old) (λ told. IfOk result (λ names. AreMarked told (IsOfRow key.now members row) names.items)) }
    ensures own { IfOk result (λ names. AllByRecursion (IsOfRow key.now members row) names.items) }
    ensures error { IfErr result SaysNothing }
{
    let mut walk = PathWalk::over(part, alloc);
    let mut names = Vec::new(alloc);
    for _ in 0..u64::MAX {
        let Some(path) = next_path(alloc, part, &mut walk)? else {
            return Ok(names);
        };
        let found = marked_name(alloc, path.as_str(), row, members, key)?;
        add_found(&mut names, found)?;
    }
    let _ = part.lost();
    Err(LayoutError::Failed)
}

// The next path of a walk.
fn next_path<S: Store>(
    alloc: Global,
    part: &mut S,
    walk: &mut PathWalk,
) -> Result<Option<String>, LayoutError>
    requires { HasRoom (S.objects part.old) walk.old }
    ensures cause { HasLayoutCause (S.faults part.old) (S.faults part.new) result }
    ensures kept { Keeps (S.objects part.old) (S.objects part.new) }
    ensures ok { IfOk result (λ found. Follows (S.objects part.old) (last_path walk.old) (option_map string_bytes found)) }
    ensures last { IfOk result (λ found. IfSome found (λ path. last_path walk.new ≡ string_bytes path)) }
    ensures room { IfOk result (λ found. IfSome found (λ _. HasRoom (S.objects part.new) walk.new)) }
    ensures error { IfErr result SaysNothing }
{
    match walk.next(part, alloc) {
        Ok(found) => Ok(found),
        Err(StoreError::Missing | StoreError::Failed) => Err(LayoutError::Failed),
        Err(StoreError::NoMemory) => Err(LayoutError::NoMemory),
    }
}

// Adds a name behind others, where one was found.
fn add_found(names: &mut Vec<RepoName>, found: Option<RepoName>) -> Result<(), AllocError>
    ensures { OnOk result (names.new.items ≡ names.old.items ++ option_to_list found) }
{
    if let Some(name) = found {
        names.push(name)?;
    }
    Ok(())
}

// The name of a repository of the row whose marker has this path, if there is one.
fn marked_name(
    alloc: Global,
    path: &str,
    row: u32,
    members: u32,
    key: &[u8; 16],
) -> Result<Option<RepoName>, AllocError>
    requires { AreMembers members }
    ensures { IfOk result (λ found. IsMarkerOf (IsOfRow key.now members row) path.now found) }
{
    let Some(text) = path.strip_suffix("/oci-layout") else {
        return Ok(None);
    };
    if !is_name(text) {
        return Ok(None);
    }
    let name = RepoName::new(String::from_str(alloc, text)?);
    if row_of(key, name.as_slice(), members) == row {
        Ok(Some(name))
    } else {
        Ok(None)
    }
}
