//! POST: of a blob that is given whole, or of a new upload.
ghost use Rattle.std.specs.Prelude.{◌≡◌, ℕ, true, false, List, Option, Some, None};
ghost use Rattle.zot_digest.specs.Digest.{IsSound};
ghost use Rattle.zot_model.specs.declared.call.Call.TheVariants as calls;
ghost use Rattle.zot_model.specs.declared.mount.Mount.{Mount as AMount};
ghost use Rattle.zot_row.specs.Going.{NeverMounts, Opens, Starts};
ghost use Rattle.zot_row.specs.declared.turn.Turn.TheVariants as turns;

use crate::knowing::know;
use crate::mounting::ask_mount;
use crate::refusing::refused;
use crate::stage::Attaching;
use crate::storing::store;
use crate::turn::Turn;
use std::alloc::Global;
use zot_digest::{Bytes, Digest, digest_of};
use zot_model::{Mount, Reply};
use zot_names::RepoName;
use zot_outside::Store;
use zot_table::Repository;

/// A POST asks for a blob of another repository, where one is named, and else that the given blob is held; or it opens an upload.
pub fn post<S: Store>(
    part: &mut S,
    alloc: Global,
    name: &RepoName,
    repo: &mut Repository,
    mount: &Option<Mount>,
    digest: &Option<Digest>,
    body: &Bytes,
    moment: u64,
) -> Turn
    ensures { Starts (calls.Post mount.now digest.now body.now) moment name.now repo.old (S.objects part.old) (S.faults part.old) result repo.new (S.objects part.new) (S.faults part.new) }
{
    match mount {
        Some(mount) => post_mount(part, alloc, name, repo, mount, digest, body, moment),
        None => post_alone(part, alloc, name, repo, digest, body, moment),
    }
}

// A POST with a mount, which counts only where a repository is named.
fn post_mount<S: Store>(
    part: &mut S,
    alloc: Global,
    name: &RepoName,
    repo: &mut Repository,
    mount: &Mount,
    digest: &Option<Digest>,
    body: &Bytes,
    moment: u64,
) -> Turn
    ensures { Starts (calls.Post (Some mount.now) digest.now body.now) moment name.now repo.old (S.objects part.old) (S.faults part.old) result repo.new (S.objects part.new) (S.faults part.new) }
{
    match &mount.from {
        Some(from) => ask_mount(part, alloc, name, repo, &mount.digest, from, digest, body),
        None => post_alone(part, alloc, name, repo, digest, body, moment),
    }
}

// A POST without a mount that counts.
fn post_alone<S: Store>(
    part: &mut S,
    alloc: Global,
    name: &RepoName,
    repo: &mut Repository,
    digest: &Option<Digest>,
    body: &Bytes,
    moment: u64,
) -> Turn
    ensures { (mount : Option AMount) → NeverMounts (calls.Post mount digest.now body.now)
        → Starts (calls.Post mount digest.now body.now) moment name.now repo.old (S.objects part.old) (S.faults part.old) result repo.new (S.objects part.new) (S.faults part.new) }
{
    match digest {
        Some(digest) => post_blob(part, alloc, name, repo, digest, body),
        None => Turn::Done(begin(part, alloc, name, repo, moment)),
    }
}

// A POST of a blob with its digest asks that a copy of it is held.
fn post_blob<S: Store>(
    part: &mut S,
    alloc: Global,
    name: &RepoName,
    repo: &mut Repository,
    digest: &Digest,
    body: &Bytes,
) -> Turn
    ensures { (mount : Option AMount) (moment : ℕ) → NeverMounts (calls.Post mount (Some digest.now) body.now)
        → Starts (calls.Post mount (Some digest.now) body.now) moment name.now repo.old (S.objects part.old) (S.faults part.old) result repo.new (S.objects part.new) (S.faults part.new) }
{
    if !is_sound(digest, body) {
        return Turn::Done(Reply::digest_invalid());
    }
    match body.copy(alloc) {
        Ok(copy) => store(part, alloc, name, repo, *digest, copy, Attaching::Blob),
        Err(_) => Turn::Done(Reply::no_memory()),
    }
}

/// Whether a digest is that of the bytes. Takes no memory.
pub fn is_sound(digest: &Digest, bytes: &Bytes) -> bool
    ensures sound { result ≡ true → IsSound digest.now bytes.now }
    ensures other { result ≡ false → ¬ IsSound digest.now bytes.now }
{
    digest_of(bytes.as_slice()) == *digest
}

// The reply to a POST of a new upload, which begins at the moment and makes the repository known.
fn begin<S: Store>(
    part: &mut S,
    alloc: Global,
    name: &RepoName,
    repo: &mut Repository,
    moment: u64,
) -> Reply
    ensures { (mount : Option AMount) (body : List ℕ) → NeverMounts (calls.Post mount None body)
        → Starts (calls.Post mount None body) moment name.now repo.old (S.objects part.old) (S.faults part.old) (turns.Done result) repo.new (S.objects part.new) (S.faults part.new) }
{
    if repo.is_full() {
        return Reply::too_many_requests();
    }
    match know(part, alloc, name, repo) {
        Ok(_) => begin_known(alloc, repo, moment),
        Err(error) => refused(error),
    }
}

/// Opens an upload of a repository that is known. Where none may be opened, it is as if memory ran out.
pub fn begin_known(alloc: Global, repo: &mut Repository, moment: u64) -> Reply
    ensures { Opens moment repo.old result repo.new }
{
    match repo.begin(alloc, moment) {
        Ok(id) => Reply::Session {
            id,
            length: 0,
            status: 202,
        },
        Err(_) => Reply::no_memory(),
    }
}
