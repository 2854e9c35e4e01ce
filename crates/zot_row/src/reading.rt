//! Manifests whose bytes have to be read before a call goes on.
ghost use Rattle.std.specs.Prelude.{◌≡◌, ℕ, ◌+◌, List, [], ◌∷◌, ◌++◌, length};
ghost use Rattle.zot_contents.specs.declared.pool_reply.PoolReply.TheVariants as replies;
ghost use Rattle.zot_row.specs.Doing.{HasUnread};
ghost use Rattle.zot_row.specs.Going.{GoesOnReading, ResumesQuietly};
ghost use Rattle.zot_row.specs.declared.stage.Stage.TheVariants as stages;
ghost use Rattle.zot_table.specs.Standing.{AllRead};

use crate::blobs::delete_read;
use crate::lists::list_read;
use crate::refusing::ungiven;
use crate::stage::{Learning, Stage};
use crate::turn::Turn;
use std::alloc::Global;
use zot_contents::{PoolCall, PoolReply};
use zot_digest::{Bytes, Digest};
use zot_model::Reply;
use zot_names::RepoName;
use zot_table::Repository;

/// Asks for the bytes of the next manifest that is left to be read, or goes on where none is.
pub fn read_next(
    alloc: Global,
    name: &RepoName,
    repo: &Repository,
    mut left: Vec<Digest>,
    purpose: Learning,
) -> Turn
    ensures { GoesOnReading purpose (HasUnread repo.now left.items) (length left.items + 2) name.now repo.now result }
{
    match left.pop() {
        Some(digest) => ask_to_read(alloc, name, repo, digest, left, purpose),
        None => go_on(alloc, name, repo, purpose),
    }
}

// Asks for the bytes of a manifest.
fn ask_to_read(
    alloc: Global,
    name: &RepoName,
    repo: &Repository,
    digest: Digest,
    left: Vec<Digest>,
    purpose: Learning,
) -> Turn
    ensures { (all : List (List ℕ)) → all ≡ left.items ++ digest ∷ [] → GoesOnReading purpose (HasUnread repo.now all) (length all + 2) name.now repo.now result }
{
    match name.copy(alloc) {
        Ok(name) => Turn::Asks(
            PoolCall::Read(name, digest),
            Stage::Learn {
                digest,
                left,
                purpose,
            },
        ),
        Err(_) => Turn::Done(Reply::no_memory()),
    }
}

// Goes on where all manifests are read.
fn go_on(alloc: Global, name: &RepoName, repo: &Repository, purpose: Learning) -> Turn
    ensures { GoesOnReading purpose (AllRead repo.now) 2 name.now repo.now result }
{
    match purpose {
        Learning::Delete(digest) => delete_read(alloc, name, repo, &digest),
        Learning::List { digest, filter } => {
            Turn::Done(list_read(alloc, repo, &digest, &filter))
        }
    }
}

/// The bytes of a manifest say what it does, and the next one is read.
pub fn learn(
    alloc: Global,
    name: &RepoName,
    repo: &mut Repository,
    digest: Digest,
    left: Vec<Digest>,
    purpose: Learning,
    answered: PoolReply,
) -> Turn
    ensures { (moment : ℕ) → ResumesQuietly (stages.Learn digest left purpose) answered moment name.now repo.old result repo.new }
{
    match answered {
        PoolReply::Content(bytes) => learn_bytes(alloc, name, repo, digest, left, purpose, &bytes),
        other => Turn::Done(ungiven(&other)),
    }
}

// The same with the bytes.
fn learn_bytes(
    alloc: Global,
    name: &RepoName,
    repo: &mut Repository,
    digest: Digest,
    left: Vec<Digest>,
    purpose: Learning,
    bytes: &Bytes,
) -> Turn
    ensures { (moment : ℕ) → ResumesQuietly (stages.Learn digest left purpose) (replies.Content bytes.now) moment name.now repo.old result repo.new }
{
    match repo.learn(alloc, &digest, bytes.as_slice()) {
        Ok(()) => read_next(alloc, name, repo, left, purpose),
        Err(_) => Turn::Done(Reply::no_memory()),
    }
}
