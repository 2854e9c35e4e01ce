//! GET, HEAD, PUT and DELETE of a manifest.
ghost use Rattle.std.specs.Prelude.{◌≡◌, IfOk, ℕ, List};
ghost use Rattle.zot_model.specs.declared.call.Call.TheVariants as calls;
ghost use Rattle.zot_table.specs.Refusals.{put_refusal};
ghost use Rattle.zot_row.specs.Going.{Quietly, ResumesQuietly, Starts};
ghost use Rattle.zot_row.specs.declared.stage.Stage.TheVariants as stages;
ghost use Rattle.zot_row.specs.declared.turn.Turn.TheVariants as turns;

use crate::knowing::write_index;
use crate::refusing::{refused, ungiven};
use crate::stage::{Attaching, Stage};
use crate::storing::store;
use crate::turn::Turn;
use std::alloc::{AllocError, Global};
use zot_contents::{PoolCall, PoolReply};
use zot_digest::{Bytes, Digest};
use zot_manifests::{CheckError, Checked};
use zot_media::{Media, Reference};
use zot_model::Reply;
use zot_names::RepoName;
use zot_outside::Store;
use zot_table::Repository;

/// The reply to a HEAD of a manifest. Takes no memory.
pub fn head_manifest(repo: &Repository, reference: &Reference) -> Reply
    ensures { (moment : ℕ) (name : List ℕ) → Quietly (calls.HeadManifest reference.now) moment name repo.now (turns.Done result) repo.now }
{
    match repo.find(reference) {
        Some(found) => Reply::ManifestHead {
            digest: found.digest,
            media: found.media,
            size: found.size,
        },
        None => Reply::manifest_unknown(),
    }
}

/// A GET of a manifest asks for its bytes.
pub fn get_manifest(
    alloc: Global,
    name: &RepoName,
    repo: &Repository,
    reference: &Reference,
) -> Turn
    ensures { (moment : ℕ) → Quietly (calls.GetManifest reference.now) moment name.now repo.now result repo.now }
{
    let Some(found) = repo.find(reference) else {
        return Turn::Done(Reply::manifest_unknown());
    };
    let Ok(name) = name.copy(alloc) else {
        return Turn::Done(Reply::no_memory());
    };
    let Ok(reference) = copy_reference(alloc, reference) else {
        return Turn::Done(Reply::no_memory());
    };
    Turn::Asks(
        PoolCall::Read(name, found.digest),
        Stage::Manifest {
            digest: found.digest,
            media: found.media,
            reference,
        },
    )
}

/// The reply to a GET of a manifest, after the pool's answer. A tag has one pull more then.
pub fn give_manifest(
    repo: &mut Repository,
    digest: Digest,
    media: Media,
    reference: Reference,
    moment: u64,
    answered: PoolReply,
) -> Reply
    ensures { (name : List ℕ) → ResumesQuietly (stages.Manifest digest media reference) answered moment name repo.old (turns.Done result) repo.new }
{
    match answered {
        PoolReply::Content(bytes) => {
            repo.pull(&reference, moment);
            Reply::Manifest {
                digest,
                media,
                bytes,
            }
        }
        other => ungiven(&other),
    }
}

/// A PUT of a manifest that may be put asks that its body is held.
pub fn put_manifest<S: Store>(
    part: &mut S,
    alloc: Global,
    name: &RepoName,
    repo: &mut Repository,
    reference: &Reference,
    media: Option<Media>,
    body: &Bytes,
) -> Turn
    ensures { (moment : ℕ) → Starts (calls.PutManifest reference.now media body.now) moment name.now repo.old (S.objects part.old) (S.faults part.old) result repo.new (S.objects part.new) (S.faults part.new) }
{
    let checked = match repo.check(alloc, reference, media, body.as_slice()) {
        Ok(checked) => checked,
        Err(error) => return Turn::Done(refused_manifest(error)),
    };
    let digest = checked.digest;
    match body.copy(alloc) {
        Ok(copy) => store(
            part,
            alloc,
            name,
            repo,
            digest,
            copy,
            Attaching::Manifest(checked),
        ),
        Err(_) => Turn::Done(Reply::no_memory()),
    }
}

/// The reply to a DELETE of a tag or of a manifest, with which its tags go: they are left out of the index first.
pub fn delete_manifest<S: Store>(
    part: &mut S,
    alloc: Global,
    name: &RepoName,
    repo: &mut Repository,
    reference: &Reference,
) -> Reply
    ensures { (moment : ℕ) → Starts (calls.DeleteManifest reference.now) moment name.now repo.old (S.objects part.old) (S.faults part.old) (turns.Done result) repo.new (S.objects part.new) (S.faults part.new) }
{
    if !repo.has_named(reference) {
        return Reply::manifest_unknown();
    }
    match write_index(part, alloc, name, repo, Some(reference)) {
        Ok(()) => {
            let _ = repo.remove_named(reference);
            Reply::Deleted
        }
        Err(error) => refused(error),
    }
}

// The reply to a manifest that was refused.
fn refused_manifest(error: CheckError) -> Reply
    ensures { result ≡ put_refusal error }
{
    match error {
        CheckError::Media | CheckError::Unread => Reply::manifest_invalid(),
        CheckError::Digest(_) => Reply::digest_invalid(),
        CheckError::Missing(digest) => Reply::manifest_blob_unknown(digest),
        CheckError::NoMemory => Reply::no_memory(),
    }
}

// A second reference that is equal to it. It fails only where memory runs out.
fn copy_reference(alloc: Global, reference: &Reference) -> Result<Reference, AllocError>
    ensures { IfOk result (λ copy. copy ≡ reference.now) }
{
    match reference {
        Reference::Tag(tag) => Ok(Reference::Tag(tag.copy(alloc)?)),
        Reference::Digest(digest) => Ok(Reference::Digest(*digest)),
    }
}
