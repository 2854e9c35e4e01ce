//! Bytes that the pool is to hold, and what a call leads to once they are held.
ghost use Rattle.std.specs.Prelude.{◌≡◌, ◌≢◌, ℕ};
ghost use Rattle.zot_model.specs.declared.call.Call.{Call};
ghost use Rattle.zot_model.specs.declared.call.Call.TheVariants as calls;
ghost use Rattle.zot_row.specs.Doing.{EndsWith};
ghost use Rattle.zot_row.specs.Going.{AsksToAttach, NeverMounts, Starts};
ghost use Rattle.zot_row.specs.Stages.{Attaches};
ghost use Rattle.zot_table.specs.Standing.{Agrees, Holds, repo_of};

use crate::knowing::know;
use crate::refusing::refused;
use crate::stage::{Attaching, Stage};
use crate::turn::Turn;
use std::alloc::Global;
use zot_contents::PoolCall;
use zot_digest::{Bytes, Digest};
use zot_model::Reply;
use zot_names::RepoName;
use zot_outside::Store;
use zot_table::Repository;

/// Makes a repository known, if it isn't, and asks that it holds these bytes, which end the call.
pub fn store<S: Store>(
    part: &mut S,
    alloc: Global,
    name: &RepoName,
    repo: &mut Repository,
    digest: Digest,
    bytes: Bytes,
    purpose: Attaching,
) -> Turn
    ensures { (call : Call) (moment : ℕ) → call ≢ calls.Base → NeverMounts call → Attaches purpose digest call
        → ((holds : Holds) → Agrees repo.old holds → EndsWith purpose digest bytes (repo_of repo.old holds) call moment)
        → Starts call moment name.now repo.old (S.objects part.old) (S.faults part.old) result repo.new (S.objects part.new) (S.faults part.new) }
{
    match know(part, alloc, name, repo) {
        Ok(_) => attach(alloc, name, repo, digest, bytes, purpose),
        Err(error) => Turn::Done(refused(error)),
    }
}

/// Makes room for a blob and asks that the repository holds its bytes, or answers that memory ran out.
pub fn attach(
    alloc: Global,
    name: &RepoName,
    repo: &mut Repository,
    digest: Digest,
    bytes: Bytes,
    purpose: Attaching,
) -> Turn
    ensures { AsksToAttach result name.now digest bytes purpose repo.old repo.new }
{
    let Ok(name) = name.copy(alloc) else {
        return Turn::Done(Reply::no_memory());
    };
    let Ok(()) = repo.reserve(&digest) else {
        return Turn::Done(Reply::no_memory());
    };
    let size = bytes.as_slice().len() as u64;
    Turn::Asks(
        PoolCall::Attach(name, digest, bytes),
        Stage::Attach {
            digest,
            size,
            purpose,
        },
    )
}
