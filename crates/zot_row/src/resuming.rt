//! The further turns of a call on a repository.
ghost use Rattle.zot_row.specs.Going.{Resumes};

use crate::blobs::{drop_blob, give_blob};
use crate::holding::attached;
use crate::manifests::give_manifest;
use crate::mounting::mounted;
use crate::reading::learn;
use crate::stage::Stage;
use crate::turn::Turn;
use std::alloc::Global;
use zot_contents::PoolReply;
use zot_names::RepoName;
use zot_outside::Store;
use zot_table::Repository;

/// Goes on with a call on the repository of a name, which waits at the stage, after the pool's answer to what it asked. The moment is that of the call.
///
/// STORAGE_FAULT comes only where the part failed in this turn, or the pool answered that a shard did. An answer that no pool gives to what was asked is taken as want of memory.
pub fn resume<S: Store>(
    part: &mut S,
    alloc: Global,
    name: &RepoName,
    repo: &mut Repository,
    stage: Stage,
    moment: u64,
    answered: PoolReply,
) -> Turn
    ensures { Resumes stage answered moment name.now repo.old (S.objects part.old) (S.faults part.old) result repo.new (S.objects part.new) (S.faults part.new) }
{
    match stage {
        Stage::Blob(digest) => Turn::Done(give_blob(digest, answered)),
        Stage::Manifest {
            digest,
            media,
            reference,
        } => Turn::Done(give_manifest(repo, digest, media, reference, moment, answered)),
        Stage::Attach {
            digest,
            size,
            purpose,
        } => Turn::Done(attached(
            part, alloc, name, repo, digest, size, purpose, moment, answered,
        )),
        Stage::Mount { digest, made, rest } => mounted(
            part, alloc, name, repo, digest, made, rest, moment, answered,
        ),
        Stage::Detach(digest) => Turn::Done(drop_blob(repo, digest, answered)),
        Stage::Learn {
            digest,
            left,
            purpose,
        } => learn(alloc, name, repo, digest, left, purpose, answered),
    }
}
