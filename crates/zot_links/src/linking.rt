//! A repository gets a link to another.
ghost use Rattle.std.specs.Prelude.{◌≡◌, ◌≤◌, ℕ, List, OnErr, OnOk, Some, ⊤};
ghost use Rattle.zot_outside.specs.Faults.{OnMissing};
ghost use Rattle.zot_outside.specs.Objects.{Told};
ghost use Rattle.zot_links.specs.Changes.{HasCallsCause, Keeps, Sets};
ghost use Rattle.zot_links.specs.Holding.{GetsLink, HasOrigin, IsLinked};
ghost use Rattle.zot_links.specs.Meaning.{IsFree, IsLink, IsWhole, Links, Stands, StandsWhereTold};

use crate::form::Form;
use crate::holding::prepare;
use crate::links::Links;
use crate::orders::{add, relink};
use crate::part::put_object;
use std::alloc::Global;
use zot_digest::Digest;
use zot_names::RepoName;
use zot_outside::{Store, StoreResult};

/// Sets what a repository holds under a digest to the bytes of another's whole object, by a link to it: it becomes a holder, its link changes, or its object becomes a link. Where other links need its object, the least of them becomes whole first.
pub fn hold_link<S: Store>(
    part: &mut S,
    alloc: Global,
    digest: &Digest,
    links: &mut Links,
    name: &RepoName,
    origin: &RepoName,
) -> StoreResult<()>
    requires stands { StandsWhereTold (S.objects part.old) digest.now links.old }
    ensures cause { HasCallsCause (S.faults part.old) (S.faults part.new) result }
    ensures ok { OnOk result (Told (S.objects part.old) (S.objects part.new) (λ old new. (bytes : List ℕ) → Stands old digest.now links.old
        → HasOrigin old digest.now links.old name.now origin.now bytes → Sets ⊤ old digest.now links.old name.now (Some bytes) new links.new)) }
    ensures err { OnErr result (Told (S.objects part.old) (S.objects part.new) (λ old new. Stands old digest.now links.old → Keeps old digest.now links.old new links.new)) }
    ensures missing { OnMissing result ⊥ }
    ensures link { OnOk result (IsLink links.new name.now origin.now) }
{
    prepare(part, alloc, digest, links, name)?;
    write_link(part, alloc, digest, links, name, origin)
}

// Sets what a repository holds, where no link needs its object.
fn write_link<S: Store>(
    part: &mut S,
    alloc: Global,
    digest: &Digest,
    links: &mut Links,
    name: &RepoName,
    origin: &RepoName,
) -> StoreResult<()>
    ensures cause { HasCallsCause (S.faults part.old) (S.faults part.new) result }
    ensures ok { OnOk result (Told (S.objects part.old) (S.objects part.new) (λ old new. GetsLink digest.now links.old name.now origin.now links.new old new)) }
    ensures err { OnErr result (Told (S.objects part.old) (S.objects part.new) (λ old new. Stands old digest.now links.old → Keeps old digest.now links.old new links.new)) }
    ensures missing { OnMissing result ⊥ }
    ensures link { OnOk result (IsLink links.new name.now origin.now) }
{
    match links.form(name) {
        Form::Absent => add(part, alloc, digest, links, name, Some(origin), b""),
        Form::Link => relink(part, alloc, digest, links, name, Some(origin)),
        Form::Whole => make_link(part, alloc, digest, links, name, origin),
    }
}

// Makes a whole holder that no link needs a link. The record that says so decides, and its object is emptied after it.
fn make_link<S: Store>(
    part: &mut S,
    alloc: Global,
    digest: &Digest,
    links: &mut Links,
    name: &RepoName,
    origin: &RepoName,
) -> StoreResult<()>
    ensures cause { HasCallsCause (S.faults part.old) (S.faults part.new) result }
    ensures ok { OnOk result (Told (S.objects part.old) (S.objects part.new) (λ old new. (bytes : List ℕ) → Stands old digest.now links.old → IsWhole links.old name.now
        → IsFree links.old name.now → HasOrigin old digest.now links.old name.now origin.now bytes → Sets ⊤ old digest.now links.old name.now (Some bytes) new links.new)) }
    ensures err { OnErr result (Told (S.objects part.old) (S.objects part.new) (λ old new. Stands old digest.now links.old → Keeps old digest.now links.old new links.new)) }
    ensures missing { OnMissing result ⊥ }
    ensures link { OnOk result (IsLink links.new name.now origin.now) }
{
    relink(part, alloc, digest, links, name, Some(origin))?;
    empty_object(part, alloc, digest, name);
    Ok(())
}

// Empties the object of a link, where that succeeds.
fn empty_object<S: Store>(part: &mut S, alloc: Global, digest: &Digest, name: &RepoName)
    ensures later { S.faults part.old ≤ S.faults part.new }
    ensures kept { Told (S.objects part.old) (S.objects part.new) (λ old new. (links : Links) → Stands old digest.now links → IsLinked links name.now → Keeps old digest.now links new links) }
{
    let _ = put_object(part, alloc, digest, name, b"");
}
