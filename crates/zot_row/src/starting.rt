//! The first turn of a call on a repository.
ghost use Rattle.zot_row.specs.Going.{Starts};

use crate::blobs::{delete_blob, get_blob, head_blob};
use crate::lists::{list_referrers, list_tags};
use crate::manifests::{delete_manifest, get_manifest, head_manifest, put_manifest};
use crate::posting::post;
use crate::turn::Turn;
use crate::uploads::{finish, patch, upload_state};
use std::alloc::Global;
use zot_model::{Call, Reply};
use zot_names::RepoName;
use zot_outside::Store;
use zot_table::Repository;

/// Begins a call on the repository of a name, at a moment in seconds: it is answered, or it asks the pool one thing and waits for the answer, which `resume` takes. Of the part it asks its own layout alone.
///
/// A request that makes a repository known puts its index and its marker before the pool is asked. STORAGE_FAULT comes only where the part failed, and NO_MEMORY where memory ran out.
pub fn start<S: Store>(
    part: &mut S,
    alloc: Global,
    name: &RepoName,
    repo: &mut Repository,
    call: &Call,
    moment: u64,
) -> Turn
    ensures { Starts call.now moment name.now repo.old (S.objects part.old) (S.faults part.old) result repo.new (S.objects part.new) (S.faults part.new) }
{
    match call {
        Call::GetBlob(digest) => get_blob(alloc, name, repo, digest),
        Call::HeadBlob(digest) => Turn::Done(head_blob(repo, digest)),
        Call::DeleteBlob(digest) => delete_blob(alloc, name, repo, digest),
        Call::Post {
            mount,
            digest,
            body,
        } => post(part, alloc, name, repo, mount, digest, body, moment),
        Call::UploadState { id } => Turn::Done(upload_state(repo, *id)),
        Call::Patch { id, range, body } => Turn::Done(patch(repo, *id, *range, body)),
        Call::Finish {
            id,
            range,
            digest,
            body,
        } => finish(part, alloc, name, repo, *id, *range, digest, body),
        Call::PutManifest {
            reference,
            media,
            body,
        } => put_manifest(part, alloc, name, repo, reference, *media, body),
        Call::GetManifest(reference) => get_manifest(alloc, name, repo, reference),
        Call::HeadManifest(reference) => Turn::Done(head_manifest(repo, reference)),
        Call::DeleteManifest(reference) => {
            Turn::Done(delete_manifest(part, alloc, name, repo, reference))
        }
        Call::Tags { n, last } => Turn::Done(list_tags(alloc, repo, *n, last)),
        Call::Referrers { digest, filter } => list_referrers(alloc, name, repo, digest, filter),
        Call::Base => Turn::Done(Reply::Base),
    }
}
