//! A repository gets bytes of its own.
ghost use Rattle.std.specs.Prelude.{◌≡◌, OnErr, OnOk, Some};
ghost use Rattle.zot_outside.specs.Faults.{HasStoreCause, OnMissing};
ghost use Rattle.zot_outside.specs.Objects.{Told};
ghost use Rattle.zot_links.specs.Changes.{Keeps, Sets};
ghost use Rattle.zot_links.specs.Holding.{GetsBytes, IsLinked, Prepares};
ghost use Rattle.zot_links.specs.Meaning.{IsFresh, IsWhole, Stands, StandsWhereTold};

use crate::form::Form;
use crate::links::Links;
use crate::orders::{add, promote, relink};
use crate::part::put_object;
use std::alloc::Global;
use zot_digest::Digest;
use zot_names::RepoName;
use zot_outside::{Store, StoreResult};

/// Sets what a repository holds under a digest, by an object of its own: it becomes a holder, its link becomes whole, or its object changes. Where other links need its object, the least of them becomes whole first.
pub fn hold_bytes<S: Store>(
    part: &mut S,
    alloc: Global,
    digest: &Digest,
    links: &mut Links,
    name: &RepoName,
    bytes: &[u8],
) -> StoreResult<()>
    requires stands { StandsWhereTold (S.objects part.old) digest.now links.old }
    ensures cause { HasStoreCause (S.faults part.old) (S.faults part.new) result }
    ensures ok { OnOk result (Told (S.objects part.old) (S.objects part.new) (λ old new. Stands old digest.now links.old
        → Sets (IsFresh old digest.now links.old bytes.now) old digest.now links.old name.now (Some bytes.now) new links.new)) }
    ensures err { OnErr result (Told (S.objects part.old) (S.objects part.new) (λ old new. Stands old digest.now links.old → Keeps old digest.now links.old new links.new)) }
    ensures missing { OnMissing result ⊥ }
    ensures whole { OnOk result (IsWhole links.new name.now) }
{
    prepare(part, alloc, digest, links, name)?;
    write_bytes(part, alloc, digest, links, name, bytes)
}

/// Makes sure that no link needs the object of a repository, if it is whole.
pub fn prepare<S: Store>(
    part: &mut S,
    alloc: Global,
    digest: &Digest,
    links: &mut Links,
    name: &RepoName,
) -> StoreResult<()>
    requires stands { StandsWhereTold (S.objects part.old) digest.now links.old }
    ensures cause { HasStoreCause (S.faults part.old) (S.faults part.new) result }
    ensures ok { OnOk result (Told (S.objects part.old) (S.objects part.new) (λ old new. Stands old digest.now links.old → Prepares old digest.now links.old name.now new links.new)) }
    ensures err { OnErr result (Told (S.objects part.old) (S.objects part.new) (λ old new. Stands old digest.now links.old → Keeps old digest.now links.old new links.new)) }
    ensures missing { OnMissing result ⊥ }
{
    match links.form(name) {
        Form::Whole => free(part, alloc, digest, links, name),
        Form::Absent => Ok(()),
        Form::Link => Ok(()),
    }
}

// Makes the least link to a whole holder whole, if there is one.
fn free<S: Store>(
    part: &mut S,
    alloc: Global,
    digest: &Digest,
    links: &mut Links,
    name: &RepoName,
) -> StoreResult<()>
    requires stands { StandsWhereTold (S.objects part.old) digest.now links.old }
    ensures cause { HasStoreCause (S.faults part.old) (S.faults part.new) result }
    ensures ok { OnOk result (Told (S.objects part.old) (S.objects part.new) (λ old new. Stands old digest.now links.old → IsWhole links.old name.now
        → Prepares old digest.now links.old name.now new links.new)) }
    ensures err { OnErr result (Told (S.objects part.old) (S.objects part.new) (λ old new. Stands old digest.now links.old → IsWhole links.old name.now
        → Keeps old digest.now links.old new links.new)) }
    ensures missing { OnMissing result ⊥ }
{
    let Some(least) = links.least_link(name) else {
        return Ok(());
    };
    let least = least.copy(alloc)?;
    promote(part, alloc, digest, links, name, &least)
}

// Sets what a repository holds, where no link needs its object.
fn write_bytes<S: Store>(
    part: &mut S,
    alloc: Global,
    digest: &Digest,
    links: &mut Links,
    name: &RepoName,
    bytes: &[u8],
) -> StoreResult<()>
    ensures cause { HasStoreCause (S.faults part.old) (S.faults part.new) result }
    ensures ok { OnOk result (Told (S.objects part.old) (S.objects part.new) (λ old new. GetsBytes digest.now links.old name.now bytes.now links.new old new)) }
    ensures err { OnErr result (Told (S.objects part.old) (S.objects part.new) (λ old new. Stands old digest.now links.old → Keeps old digest.now links.old new links.new)) }
    ensures missing { OnMissing result ⊥ }
    ensures whole { OnOk result (IsWhole links.new name.now) }
{
    match links.form(name) {
        Form::Absent => add(part, alloc, digest, links, name, None, bytes),
        Form::Link => make_whole(part, alloc, digest, links, name, bytes),
        Form::Whole => put_object(part, alloc, digest, name, bytes),
    }
}

// Makes a link whole, with these bytes.
fn make_whole<S: Store>(
    part: &mut S,
    alloc: Global,
    digest: &Digest,
    links: &mut Links,
    name: &RepoName,
    bytes: &[u8],
) -> StoreResult<()>
    ensures cause { HasStoreCause (S.faults part.old) (S.faults part.new) result }
    ensures ok { OnOk result (Told (S.objects part.old) (S.objects part.new) (λ old new. Stands old digest.now links.old → IsLinked links.old name.now
        → Sets (IsFresh old digest.now links.old bytes.now) old digest.now links.old name.now (Some bytes.now) new links.new)) }
    ensures err { OnErr result (Told (S.objects part.old) (S.objects part.new) (λ old new. Stands old digest.now links.old → IsLinked links.old name.now
        → Keeps old digest.now links.old new links.new)) }
    ensures missing { OnMissing result ⊥ }
    ensures whole { OnOk result (IsWhole links.new name.now) }
{
    put_object(part, alloc, digest, name, bytes)?;
    relink(part, alloc, digest, links, name, None)
}
