//! GET, HEAD and DELETE of a blob.
ghost use Rattle.std.specs.Prelude.{ℕ, List};
ghost use Rattle.zot_model.specs.declared.call.Call.TheVariants as calls;
ghost use Rattle.zot_row.specs.Going.{GoesOnReading, Quietly, ResumesQuietly};
ghost use Rattle.zot_row.specs.declared.stage.Learning.TheVariants as learning;
ghost use Rattle.zot_row.specs.declared.stage.Stage.TheVariants as stages;
ghost use Rattle.zot_row.specs.declared.turn.Turn.TheVariants as turns;
ghost use Rattle.zot_table.specs.Standing.{AllRead};
ghost use Rattle.zot_table.specs.Tables.{RepoTable};

use crate::reading::read_next;
use crate::refusing::ungiven;
use crate::stage::{Learning, Stage};
use crate::turn::Turn;
use std::alloc::Global;
use zot_contents::{PoolCall, PoolReply};
use zot_digest::Digest;
use zot_model::{Methods, Reply};
use zot_names::RepoName;
use zot_table::Repository;

/// A GET of a blob asks for its bytes.
pub fn get_blob(alloc: Global, name: &RepoName, repo: &Repository, digest: &Digest) -> Turn
    ensures { (moment : ℕ) → Quietly (calls.GetBlob digest.now) moment name.now repo.now result repo.now }
{
    if repo.size(digest).is_none() {
        return Turn::Done(Reply::blob_unknown());
    }
    match name.copy(alloc) {
        Ok(name) => Turn::Asks(PoolCall::Read(name, *digest), Stage::Blob(*digest)),
        Err(_) => Turn::Done(Reply::no_memory()),
    }
}

/// The reply to a GET of a blob, after the pool's answer.
pub fn give_blob(digest: Digest, answered: PoolReply) -> Reply
    ensures { (moment : ℕ) (name : List ℕ) (repo : RepoTable) → ResumesQuietly (stages.Blob digest) answered moment name repo (turns.Done result) repo }
{
    match answered {
        PoolReply::Content(bytes) => Reply::Blob { digest, bytes },
        other => ungiven(&other),
    }
}

/// The reply to a HEAD of a blob. Takes no memory.
pub fn head_blob(repo: &Repository, digest: &Digest) -> Reply
    ensures { (moment : ℕ) (name : List ℕ) → Quietly (calls.HeadBlob digest.now) moment name repo.now (turns.Done result) repo.now }
{
    match repo.size(digest) {
        Some(size) => Reply::BlobHead {
            digest: *digest,
            size,
        },
        None => Reply::blob_unknown(),
    }
}

/// A DELETE of a blob has to know what all manifests say, and then asks that the blob is held no more.
pub fn delete_blob(alloc: Global, name: &RepoName, repo: &mut Repository, digest: &Digest) -> Turn
    ensures { (moment : ℕ) → Quietly (calls.DeleteBlob digest.now) moment name.now repo.old result repo.new }
{
    if repo.size(digest).is_none() {
        return Turn::Done(Reply::blob_unknown());
    }
    match repo.unread(alloc) {
        Ok(left) => read_next(alloc, name, repo, left, Learning::Delete(*digest)),
        Err(_) => Turn::Done(Reply::no_memory()),
    }
}

/// A DELETE of a blob where all manifests are read.
pub fn delete_read(alloc: Global, name: &RepoName, repo: &Repository, digest: &Digest) -> Turn
    ensures { GoesOnReading (learning.Delete digest.now) (AllRead repo.now) 2 name.now repo.now result }
{
    if repo.size(digest).is_none() {
        return Turn::Done(Reply::blob_unknown());
    }
    if repo.is_needed(digest) {
        return Turn::Done(Reply::not_allowed(Methods::Read));
    }
    match name.copy(alloc) {
        Ok(name) => Turn::Asks(PoolCall::Detach(name, *digest), Stage::Detach(*digest)),
        Err(_) => Turn::Done(Reply::no_memory()),
    }
}

/// The reply to a DELETE of a blob, after the pool's answer.
pub fn drop_blob(repo: &mut Repository, digest: Digest, answered: PoolReply) -> Reply
    ensures { (moment : ℕ) (name : List ℕ) → ResumesQuietly (stages.Detach digest) answered moment name repo.old (turns.Done result) repo.new }
{
    match answered {
        PoolReply::Removed(_) => {
            repo.clear(&digest);
            Reply::Deleted
        }
        other => ungiven(&other),
    }
}
