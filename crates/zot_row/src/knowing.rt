//! What a turn writes of its repository: the index and the marker.
ghost use Rattle.std.specs.Prelude.{◌≡◌, IfOk, Option, OnErr, OnOk, true, false, not, option_map};
ghost use Rattle.zot_layout.specs.State.{as_written};
ghost use Rattle.zot_layout.specs.Writing.{PutsIndex};
ghost use Rattle.zot_outside.specs.Faults.{HasStoreCause};
ghost use Rattle.zot_outside.specs.Objects.{Keeps, Told};
ghost use Rattle.zot_row.specs.Going.{KeepsOthers, KeepsStanding};
ghost use Rattle.zot_table.specs.Changes.{known_as, left_by};
ghost use Rattle.zot_table.specs.Tables.{index_of};

use std::alloc::Global;
use zot_layout::{forget, make_known, put_index};
use zot_media::Reference;
use zot_names::RepoName;
use zot_outside::{Store, StoreError, StoreResult};
use zot_table::Repository;

/// Makes a repository known, if it isn't, by its index and then its marker, and answers whether it was made so. After an `Err` it is as it was; `Failed` comes only where the store failed.
pub fn know<S: Store>(
    part: &mut S,
    alloc: Global,
    name: &RepoName,
    repo: &mut Repository,
) -> StoreResult<bool>
    ensures cause { HasStoreCause (S.faults part.old) (S.faults part.new) result }
    ensures ok { OnOk result (repo.new ≡ known_as true repo.old) }
    ensures made { IfOk result (λ made. made ≡ not repo.old.known) }
    ensures err { OnErr result (repo.new ≡ repo.old) }
    ensures stands { KeepsStanding (S.objects part.old) name.now repo.old (S.objects part.new) repo.new }
    ensures beside { KeepsOthers (S.objects part.old) name.now repo.old (S.objects part.new) }
{
    if repo.known() {
        return Ok(false);
    }
    let index = repo.index(alloc, None)?;
    make_known(part, alloc, name, &index)?;
    repo.set_known(true);
    Ok(true)
}

/// Forgets a repository that was made known for nothing: its marker is deleted, if it has neither manifests nor tags. After an `Err` it is as it was; `Failed` comes only where the store failed.
pub fn unknow<S: Store>(
    part: &mut S,
    alloc: Global,
    name: &RepoName,
    repo: &mut Repository,
) -> StoreResult<()>
    ensures cause { HasStoreCause (S.faults part.old) (S.faults part.new) result }
    ensures ok { OnOk result (repo.new ≡ known_as false repo.old) }
    ensures err { OnErr result (repo.new ≡ repo.old) }
    ensures stands { KeepsStanding (S.objects part.old) name.now repo.old (S.objects part.new) repo.new }
    ensures beside { KeepsOthers (S.objects part.old) name.now repo.old (S.objects part.new) }
{
    if !repo.is_bare() {
        return Err(StoreError::NoMemory);
    }
    forget(part, alloc, name)?;
    repo.set_known(false);
    Ok(())
}

/// Puts the index of a repository, but for what the reference names, where one is given. After an `Err` no object has changed; `Failed` comes only where the store failed.
pub fn write_index<S: Store>(
    part: &mut S,
    alloc: Global,
    name: &RepoName,
    repo: &Repository,
    gone: Option<&Reference>,
) -> StoreResult<()>
    ensures cause { HasStoreCause (S.faults part.old) (S.faults part.new) result }
    ensures ok { OnOk result (Told (S.objects part.old) (S.objects part.new) (λ old new. PutsIndex old name.now (as_written (index_of (left_by repo.now (option_map (λ r. r.now) gone.entry)))) new)) }
    ensures err { OnErr result (Keeps (S.objects part.old) (S.objects part.new)) }
{
    let index = repo.index(alloc, gone)?;
    put_index(part, alloc, name, &index)
}
