//! GET, PATCH and the last PUT of an upload, and a new one.
ghost use Rattle.std.specs.Prelude.{◌≡◌, ℕ, List, Option, None};
ghost use Rattle.zot_model.specs.declared.call.Call.TheVariants as calls;
ghost use Rattle.zot_table.specs.Refusals.{upload_refusal};
ghost use Rattle.zot_table.specs.Replies.{state_reply};
ghost use Rattle.zot_row.specs.Going.{Quietly, Starts};
ghost use Rattle.zot_row.specs.declared.turn.Turn.TheVariants as turns;

use crate::stage::Attaching;
use crate::storing::store;
use crate::turn::Turn;
use std::alloc::Global;
use zot_digest::{Bytes, Digest};
use zot_model::{Reply, Span};
use zot_names::{RepoName, UploadId};
use zot_outside::Store;
use zot_table::Repository;
use zot_uploads::UploadError;

/// The reply to a GET of an upload; a text that is no id names none. Takes no memory.
pub fn upload_state(repo: &Repository, id: Option<UploadId>) -> Reply
    ensures { (moment : ℕ) (name : List ℕ) → Quietly (calls.UploadState id) moment name repo.now (turns.Done result) repo.now }
{
    state_of(repo, id)
}

// The same, by what is kept of the uploads.
fn state_of(repo: &Repository, id: Option<UploadId>) -> Reply
    ensures { result ≡ state_reply id repo.now.sessions }
{
    let Some(id) = id else {
        return Reply::upload_unknown();
    };
    match repo.length(id) {
        Some(length) => Reply::Session {
            id,
            length,
            status: 204,
        },
        None => Reply::upload_unknown(),
    }
}

/// The reply to a PATCH of an upload, whose body is put after the upload's bytes.
pub fn patch(
    repo: &mut Repository,
    id: Option<UploadId>,
    range: Option<Span>,
    body: &Bytes,
) -> Reply
    ensures { (moment : ℕ) (name : List ℕ) → Quietly (calls.Patch id range body.now) moment name repo.old (turns.Done result) repo.new }
{
    let Some(id) = id else {
        return Reply::upload_unknown();
    };
    match repo.append(id, range, body.as_slice()) {
        Ok(length) => Reply::Session {
            id,
            length,
            status: 202,
        },
        Err(error) => refused_upload(id, error),
    }
}

/// The last PUT of an upload asks that its bytes with the last piece are held.
pub fn finish<S: Store>(
    part: &mut S,
    alloc: Global,
    name: &RepoName,
    repo: &mut Repository,
    id: Option<UploadId>,
    range: Option<Span>,
    digest: &Digest,
    body: &Bytes,
) -> Turn
    ensures { (moment : ℕ) → Starts (calls.Finish id range digest.now body.now) moment name.now repo.old (S.objects part.old) (S.faults part.old) result repo.new (S.objects part.new) (S.faults part.new) }
{
    let Some(id) = id else {
        return Turn::Done(Reply::upload_unknown());
    };
    match repo.whole(alloc, id, range, body.as_slice(), digest) {
        Ok(bytes) => store(
            part,
            alloc,
            name,
            repo,
            *digest,
            Bytes::new(bytes),
            Attaching::Upload(id),
        ),
        Err(error) => Turn::Done(refused_upload(id, error)),
    }
}

// The reply to a request on an upload that was refused.
fn refused_upload(id: UploadId, error: UploadError) -> Reply
    ensures { result ≡ upload_refusal id error }
{
    match error {
        UploadError::Full => Reply::too_many_requests(),
        UploadError::Unknown => Reply::upload_unknown(),
        UploadError::Range(length) => Reply::upload_invalid(id, length),
        UploadError::TooLarge => Reply::size_invalid(),
        UploadError::Differ(_) => Reply::digest_invalid(),
        UploadError::NoMemory => Reply::no_memory(),
    }
}
