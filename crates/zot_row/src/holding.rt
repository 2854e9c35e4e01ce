//! What a call leads to once the pool has answered whether its bytes are held.
ghost use Rattle.std.specs.Prelude.{◌≡◌, ℕ, List, true, false};
ghost use Rattle.zot_row.specs.Going.{IsReady, IsUnready, Resumes};
ghost use Rattle.zot_row.specs.declared.stage.Attaching.TheVariants as attaching;
ghost use Rattle.zot_row.specs.declared.stage.Stage.TheVariants as stages;
ghost use Rattle.zot_row.specs.declared.turn.Turn.TheVariants as turns;
ghost use Rattle.zot_contents.specs.declared.pool_reply.PoolReply.TheVariants as replies;
ghost use Rattle.zot_table.specs.Changes.{with_entry};
ghost use Rattle.zot_table.specs.Tables.{RepoTable};

use crate::knowing::write_index;
use crate::refusing::{refused, ungiven};
use crate::stage::Attaching;
use std::alloc::Global;
use zot_contents::PoolReply;
use zot_digest::Digest;
use zot_manifests::Checked;
use zot_model::Reply;
use zot_names::RepoName;
use zot_outside::Store;
use zot_table::Repository;

/// The reply to a call whose bytes were to be held, after the pool's answer.
pub fn attached<S: Store>(
    part: &mut S,
    alloc: Global,
    name: &RepoName,
    repo: &mut Repository,
    digest: Digest,
    size: u64,
    purpose: Attaching,
    moment: u64,
    answered: PoolReply,
) -> Reply
    ensures { Resumes (stages.Attach digest size purpose) answered moment name.now repo.old (S.objects part.old) (S.faults part.old) (turns.Done result) repo.new (S.objects part.new) (S.faults part.new) }
{
    match answered {
        PoolReply::Done => hold(part, alloc, name, repo, digest, size, purpose, moment),
        other => {
            repo.settle(&digest);
            ungiven(&other)
        }
    }
}

// The bytes are held: they are a blob, which the call is about or which it makes more of.
fn hold<S: Store>(
    part: &mut S,
    alloc: Global,
    name: &RepoName,
    repo: &mut Repository,
    digest: Digest,
    size: u64,
    purpose: Attaching,
    moment: u64,
) -> Reply
    ensures { Resumes (stages.Attach digest size purpose) replies.Done moment name.now repo.old (S.objects part.old) (S.faults part.old) (turns.Done result) repo.new (S.objects part.new) (S.faults part.new) }
{
    if !is_ready(repo, &digest) {
        return Reply::no_memory();
    }
    match purpose {
        Attaching::Blob => {
            repo.fill(&digest, size, moment);
            Reply::BlobMade { digest }
        }
        Attaching::Upload(id) => {
            repo.fill(&digest, size, moment);
            repo.end(id);
            Reply::BlobMade { digest }
        }
        Attaching::Manifest(checked) => {
            repo.fill(&digest, size, moment);
            keep(part, alloc, name, repo, checked, moment)
        }
    }
}

/// Whether a repository is as one that waits for bytes: it is known, and has room for them. Takes no memory.
pub fn is_ready(repo: &Repository, digest: &Digest) -> bool
    ensures ready { result ≡ true → IsReady repo.now digest.now }
    ensures other { result ≡ false → IsUnready repo.now digest.now }
{
    repo.known() && repo.has_room(digest)
}

// Keeps a manifest whose body has become a blob, and puts the index. Where that fails, it is taken back, and its body is left as a blob.
fn keep<S: Store>(
    part: &mut S,
    alloc: Global,
    name: &RepoName,
    repo: &mut Repository,
    checked: Checked,
    moment: u64,
) -> Reply
    ensures { (table : RepoTable) (digest : List ℕ) (size : ℕ) → repo.old ≡ with_entry moment table digest size → table.known ≡ true
        → Resumes (stages.Attach digest size (attaching.Manifest checked)) replies.Done moment name.now table (S.objects part.old) (S.faults part.old) (turns.Done result) repo.new (S.objects part.new) (S.faults part.new) }
{
    let digest = checked.digest;
    let subject = checked.reading.subject_digest();
    let Ok(before) = repo.put_manifest(alloc, checked, moment) else {
        return Reply::no_memory();
    };
    match write_index(part, alloc, name, repo, None) {
        Ok(()) => Reply::ManifestMade { digest, subject },
        Err(error) => {
            repo.take_back(alloc, before);
            refused(error)
        }
    }
}
