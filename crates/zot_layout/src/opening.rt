//! The repositories of a row, as its part of the store holds them.
ghost use Rattle.std.specs.Prelude.{◌≡◌, ◌++◌, [], ℕ, List, Contains, IfOk, IfSome, OnOk};
ghost use Rattle.zot_outside.specs.Objects.{Keeps};
ghost use Rattle.zot_siphash.specs.Owners.{AreMembers};
ghost use Rattle.zot_layout.specs.Causes.{Answers, HasLayoutCause, items_in};
ghost use Rattle.zot_layout.specs.Rows.{AreIndexes, IsOfRow, OpensRow, before, opened};
ghost use Rattle.zot_layout.specs.Stands.{StandsFor, repo_among};

use crate::index_state::IndexState;
use crate::layout_error::LayoutError;
use crate::repository::read_layout;
use crate::walking::marked_names;
use std::alloc::{AllocError, Global};
use zot_names::RepoName;
use zot_outside::Store;

/// The repositories of a row that its part of the store holds, each with what its index says, in the order of their markers' paths. The part's paths are walked once, and no object is changed.
///
/// A repository is known where its marker `NAME/oci-layout` is there, and a missing `NAME/index.json` stands for an empty index. All other paths are left alone, and those of names that are of another row, by the key and the number of members, or no names. The moment of opening, in seconds, stands for the moments that an index doesn't say.
///
/// `BadIndex` and `BadMeta` come exactly where an object has no meaning, of the first repository that has one. `Failed` comes only where the part failed.
pub fn open_row<S: Store>(
    alloc: Global,
    part: &mut S,
    row: u32,
    members: u32,
    key: &[u8; 16],
    moment: u64,
) -> Result<Vec<(RepoName, IndexState)>, LayoutError>
    requires { AreMembers members }
    ensures cause { HasLayoutCause (S.faults part.old) (S.faults part.new) result }
    ensures kept { Keeps (S.objects part.old) (S.objects part.new) }
    ensures opens { IfSome (S.objects part.old) (λ told. OpensRow told (IsOfRow key.now members row) moment (items_in result)) }
    ensures stands { IfSome (S.objects part.old) (λ told. IfOk result (λ repos. (name : List ℕ) → IsOfRow key.now members row name → StandsFor told moment name (repo_among repos.items name))) }
    ensures indexes { IfOk result (λ repos. AreIndexes (IsOfRow key.now members row) repos.items) }
{
    let names = marked_names(alloc, part, row, members, key)?;
    read_layouts(alloc, part, names, moment)
}

// The repositories of these names that are known.
fn read_layouts<S: Store>(
    alloc: Global,
    part: &mut S,
    names: Vec<RepoName>,
    moment: u64,
) -> Result<Vec<(RepoName, IndexState)>, LayoutError>
    ensures cause { HasLayoutCause (S.faults part.old) (S.faults part.new) result }
    ensures kept { Keeps (S.objects part.old) (S.objects part.new) }
    ensures told { IfSome (S.objects part.old) (λ told. Answers (items_in result) (opened told moment names.items)) }
    ensures indexes { IfOk result (λ repos. AreIndexes (Contains names.items) repos.items) }
{
    let mut repos = Vec::new(alloc);
    for name in names {
        let found = read_layout(alloc, part, &name, moment)?;
        add_known(&mut repos, name, found)?;
    }
    Ok(repos)
}

// Adds a repository behind others, if it is known.
fn add_known(
    repos: &mut Vec<(RepoName, IndexState)>,
    name: RepoName,
    found: Option<IndexState>,
) -> Result<(), AllocError>
    ensures { OnOk result (repos.new.items ≡ repos.old.items ++ before name found []) }
{
    if let Some(index) = found {
        repos.push((name, index))?;
    }
    Ok(())
}
