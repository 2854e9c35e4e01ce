//! A blob that a POST takes over from another repository.
ghost use Rattle.std.specs.Prelude.{◌≡◌, ℕ, Bool, IfOk, List, Some};
ghost use Rattle.zot_contents.specs.declared.pool_reply.PoolReply.TheVariants as replies;
ghost use Rattle.zot_model.specs.declared.call.Call.TheVariants as calls;
ghost use Rattle.zot_row.specs.Going.{AsksToTake, KeepsOthers, KeepsStanding, Resumes, ResumesQuietly, Starts, TakesBack};
ghost use Rattle.zot_row.specs.Stages.{IsRest};
ghost use Rattle.zot_row.specs.declared.stage.Rest.{Rest as ARest};
ghost use Rattle.zot_row.specs.declared.stage.Rest.TheVariants as rests;
ghost use Rattle.zot_row.specs.declared.stage.Stage.TheVariants as stages;
ghost use Rattle.zot_row.specs.declared.turn.Turn.TheVariants as turns;
ghost use Rattle.zot_table.specs.Changes.{settled};
ghost use Rattle.zot_table.specs.Tables.{RepoTable};

use crate::holding::is_ready;
use crate::knowing::{know, unknow};
use crate::posting::{begin_known, is_sound};
use crate::refusing::{refused, ungiven};
use crate::stage::{Attaching, Rest, Stage};
use crate::storing::attach;
use crate::turn::Turn;
use std::alloc::{AllocError, Global};
use zot_contents::{PoolCall, PoolReply};
use zot_digest::{Bytes, Digest};
use zot_model::Reply;
use zot_names::RepoName;
use zot_outside::Store;
use zot_table::Repository;

/// A POST that names a repository makes its own known, if it isn't, and asks for the blob of the other one.
pub fn ask_mount<S: Store>(
    part: &mut S,
    alloc: Global,
    name: &RepoName,
    repo: &mut Repository,
    wanted: &Digest,
    from: &RepoName,
    digest: &Option<Digest>,
    body: &Bytes,
) -> Turn
    ensures { (moment : ℕ) → Starts (calls.Post (Some (record { digest = wanted.now; from = Some from.now })) digest.now body.now) moment name.now repo.old (S.objects part.old) (S.faults part.old) result repo.new (S.objects part.new) (S.faults part.new) }
{
    let Ok(rest) = rest_of(alloc, digest, body) else {
        return Turn::Done(Reply::no_memory());
    };
    match know(part, alloc, name, repo) {
        Ok(made) => ask(alloc, name, repo, wanted, from, made, rest),
        Err(error) => Turn::Done(refused(error)),
    }
}

// What a POST is without its mount, with a copy of its body where that is a blob. It fails only where memory runs out.
fn rest_of(alloc: Global, digest: &Option<Digest>, body: &Bytes) -> Result<Rest, AllocError>
    ensures { IfOk result (λ rest. IsRest rest digest.now body.now) }
{
    let Some(digest) = digest else {
        return Ok(Rest::Upload);
    };
    if !is_sound(digest, body) {
        return Ok(Rest::Unsound);
    }
    let body = body.copy(alloc)?;
    Ok(Rest::Blob {
        digest: *digest,
        body,
    })
}

// Makes room for the blob and asks for it, or answers that memory ran out.
fn ask(
    alloc: Global,
    name: &RepoName,
    repo: &mut Repository,
    wanted: &Digest,
    from: &RepoName,
    made: bool,
    rest: Rest,
) -> Turn
    ensures { AsksToTake result name.now from.now wanted.now made rest repo.old repo.new }
{
    let Ok(name) = name.copy(alloc) else {
        return Turn::Done(Reply::no_memory());
    };
    let Ok(from) = from.copy(alloc) else {
        return Turn::Done(Reply::no_memory());
    };
    let Ok(()) = repo.reserve(wanted) else {
        return Turn::Done(Reply::no_memory());
    };
    Turn::Asks(
        PoolCall::Mount(name, from, *wanted),
        Stage::Mount {
            digest: *wanted,
            made,
            rest,
        },
    )
}

/// A POST goes on after the pool's answer: the blob was taken over, or the POST is as one without its mount.
pub fn mounted<S: Store>(
    part: &mut S,
    alloc: Global,
    name: &RepoName,
    repo: &mut Repository,
    digest: Digest,
    made: bool,
    rest: Rest,
    moment: u64,
    answered: PoolReply,
) -> Turn
    ensures { Resumes (stages.Mount digest made rest) answered moment name.now repo.old (S.objects part.old) (S.faults part.old) result repo.new (S.objects part.new) (S.faults part.new) }
{
    match answered {
        PoolReply::Size(size) => Turn::Done(take(repo, digest, size, moment)),
        PoolReply::Nothing => {
            repo.settle(&digest);
            go_on(part, alloc, name, repo, made, rest, moment)
        }
        other => {
            repo.settle(&digest);
            Turn::Done(ungiven(&other))
        }
    }
}

// The blob that another repository holds is this one's own, of so many bytes.
fn take(repo: &mut Repository, digest: Digest, size: u64, moment: u64) -> Reply
    ensures { (name : List ℕ) (made : Bool) (rest : ARest) → ResumesQuietly (stages.Mount digest made rest) (replies.Size size) moment name repo.old (turns.Done result) repo.new }
{
    if !is_ready(repo, &digest) {
        return Reply::no_memory();
    }
    repo.fill(&digest, size, moment);
    Reply::BlobMade { digest }
}

// The POST goes on as one without its mount.
fn go_on<S: Store>(
    part: &mut S,
    alloc: Global,
    name: &RepoName,
    repo: &mut Repository,
    made: bool,
    rest: Rest,
    moment: u64,
) -> Turn
    ensures { (table : RepoTable) (digest : List ℕ) → repo.old ≡ settled table digest
        → Resumes (stages.Mount digest made rest) replies.Nothing moment name.now table (S.objects part.old) (S.faults part.old) result repo.new (S.objects part.new) (S.faults part.new) }
{
    match rest {
        Rest::Upload => Turn::Done(begin_after(part, alloc, name, repo, made, moment)),
        Rest::Blob { digest, body } => attach(alloc, name, repo, digest, body, Attaching::Blob),
        Rest::Unsound => Turn::Done(take_back(
            part,
            alloc,
            name,
            repo,
            made,
            Reply::digest_invalid(),
        )),
    }
}

// The reply to a POST of a new upload, of a repository that is known by now.
fn begin_after<S: Store>(
    part: &mut S,
    alloc: Global,
    name: &RepoName,
    repo: &mut Repository,
    made: bool,
    moment: u64,
) -> Reply
    ensures { (table : RepoTable) (digest : List ℕ) → repo.old ≡ settled table digest
        → Resumes (stages.Mount digest made rests.Upload) replies.Nothing moment name.now table (S.objects part.old) (S.faults part.old) (turns.Done result) repo.new (S.objects part.new) (S.faults part.new) }
{
    if repo.is_full() {
        return take_back(part, alloc, name, repo, made, Reply::too_many_requests());
    }
    begin_known(alloc, repo, moment)
}

// The reply that refuses a POST. If the repository was made known for it, it is forgotten again before.
fn take_back<S: Store>(
    part: &mut S,
    alloc: Global,
    name: &RepoName,
    repo: &mut Repository,
    made: bool,
    reply: Reply,
) -> Reply
    ensures takes { TakesBack made reply repo.old (S.faults part.old) result repo.new (S.faults part.new) }
    ensures stands { KeepsStanding (S.objects part.old) name.now repo.old (S.objects part.new) repo.new }
    ensures beside { KeepsOthers (S.objects part.old) name.now repo.old (S.objects part.new) }
{
    if !made {
        return reply;
    }
    match unknow(part, alloc, name, repo) {
        Ok(()) => reply,
        Err(error) => refused(error),
    }
}
