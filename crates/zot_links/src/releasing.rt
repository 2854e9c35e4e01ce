//! A repository gives up what it holds.
ghost use Rattle.std.specs.Prelude.{◌≡◌, true, IfOk, None, OnErr, OnOk, ⊤};
ghost use Rattle.zot_names.specs.Name.{IsName};
ghost use Rattle.zot_outside.specs.Faults.{OnMissing};
ghost use Rattle.zot_outside.specs.Objects.{Told};
ghost use Rattle.zot_links.specs.Changes.{HasCallsCause, Keeps, Sets};
ghost use Rattle.zot_links.specs.Holding.{MayChange, Releases};
ghost use Rattle.zot_links.specs.Meaning.{IsFree, Stands, StandsWhereTold};

use crate::holding::prepare;
use crate::links::Links;
use crate::orders::remove;
use std::alloc::Global;
use zot_digest::Digest;
use zot_names::RepoName;
use zot_outside::{Store, StoreResult};

/// Removes what a repository holds under a digest, and answers whether it held anything. Where links need its object, the least of them becomes whole first.
pub fn release<S: Store>(
    part: &mut S,
    alloc: Global,
    digest: &Digest,
    links: &mut Links,
    name: &RepoName,
) -> StoreResult<bool>
    requires stands { StandsWhereTold (S.objects part.old) digest.now links.old }
    ensures cause { HasCallsCause (S.faults part.old) (S.faults part.new) result }
    ensures ok { IfOk result (λ was. Told (S.objects part.old) (S.objects part.new) (λ old new. Releases was old digest.now links.old name.now new links.new)) }
    ensures err { OnErr result (Told (S.objects part.old) (S.objects part.new) (λ old new. Keeps old digest.now links.old new links.new)) }
    ensures missing { OnMissing result ⊥ }
{
    prepare(part, alloc, digest, links, name)?;
    release_now(part, alloc, digest, links, name)
}

// The same, where no link needs the repository's object.
fn release_now<S: Store>(
    part: &mut S,
    alloc: Global,
    digest: &Digest,
    links: &mut Links,
    name: &RepoName,
) -> StoreResult<bool>
    ensures cause { HasCallsCause (S.faults part.old) (S.faults part.new) result }
    ensures ok { IfOk result (λ was. Told (S.objects part.old) (S.objects part.new) (λ old new. Stands old digest.now links.old → MayChange links.old name.now
        → Releases was old digest.now links.old name.now new links.new)) }
    ensures err { OnErr result (Told (S.objects part.old) (S.objects part.new) (λ old new. Stands old digest.now links.old → Keeps old digest.now links.old new links.new)) }
    ensures missing { OnMissing result ⊥ }
    ensures name { IsName name.now }
{
    match links.source(name) {
        Some(_) => remove_holder(part, alloc, digest, links, name),
        None => Ok(false),
    }
}

// Removes a holder that no link needs, and answers that it was one.
fn remove_holder<S: Store>(
    part: &mut S,
    alloc: Global,
    digest: &Digest,
    links: &mut Links,
    name: &RepoName,
) -> StoreResult<bool>
    ensures cause { HasCallsCause (S.faults part.old) (S.faults part.new) result }
    ensures answer { IfOk result (λ was. was ≡ true) }
    ensures ok { OnOk result (Told (S.objects part.old) (S.objects part.new) (λ old new. Stands old digest.now links.old → IsFree links.old name.now → Sets ⊤ old digest.now links.old name.now None new links.new)) }
    ensures err { OnErr result (Told (S.objects part.old) (S.objects part.new) (λ old new. Stands old digest.now links.old → Keeps old digest.now links.old new links.new)) }
    ensures missing { OnMissing result ⊥ }
{
    remove(part, alloc, digest, links, name)?;
    Ok(true)
}
