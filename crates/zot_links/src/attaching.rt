//! A repository comes to hold bytes, where equal ones of others are looked for.
ghost use Rattle.std.specs.Prelude.{◌≡◌, ◌↔◌, ℕ, Bool, List, false, true, IfOk, IfSome, IsSome, IsTrue, OnErr, OnOk, Some, map as each, option_map};
ghost use Rattle.std.specs.List.{AllByRecursion};
ghost use Rattle.std.specs.List.Sorted.{IsStrictlySortedBy};
ghost use Rattle.zot_digest.specs.ByteMap.{byte_cmp};
ghost use Rattle.zot_outside.specs.Faults.{HasStoreCause, OnMissing};
ghost use Rattle.zot_links.specs.Aims.{Attains, HasBytes, IsAim, IsAimed, IsFirst};
ghost use Rattle.zot_outside.specs.Objects.{Told};
ghost use Rattle.zot_links.specs.Changes.{HasCallsCause, Keeps, Sets};
ghost use Rattle.zot_links.specs.Meaning.{StandsWhereTold, held, object_at};

use crate::aim::Aim;
use crate::holding::hold_bytes;
use crate::linking::hold_link;
use crate::links::{Links, Tree};
use crate::part::object_is;
use std::alloc::Global;
use zot_digest::Digest;
use zot_names::RepoName;
use zot_outside::{Store, StoreResult};

/// Sets what a repository holds under a digest. With `dedupe` bytes of at least one byte become a link to the least whole holder, in byte order, whose object has them; without such a holder, and for no bytes, an object of its own. Where the repository holds these bytes nothing is written.
pub fn attach<S: Store>(
    part: &mut S,
    alloc: Global,
    digest: &Digest,
    links: &mut Links,
    dedupe: bool,
    name: &RepoName,
    bytes: &[u8],
) -> StoreResult<()>
    requires stands { StandsWhereTold (S.objects part.old) digest.now links.old }
    ensures cause { HasCallsCause (S.faults part.old) (S.faults part.new) result }
    ensures ok { OnOk result (Told (S.objects part.old) (S.objects part.new) (λ old new. Sets (dedupe ≡ true) old digest.now links.old name.now (Some bytes.now) new links.new)) }
    ensures err { OnErr result (Told (S.objects part.old) (S.objects part.new) (λ old new. Keeps old digest.now links.old new links.new)) }
    ensures missing { OnMissing result ⊥ }
    ensures form { OnOk result (IfSome (S.objects part.old) (λ told. IsAimed dedupe told digest.now links.old name.now bytes.now links.new)) }
{
    let aim = choose(part, alloc, digest, links, dedupe, name, bytes)?;
    carry_out(part, alloc, digest, links, name, bytes, &aim)
}

// Carries out an aim.
fn carry_out<S: Store>(
    part: &mut S,
    alloc: Global,
    digest: &Digest,
    links: &mut Links,
    name: &RepoName,
    bytes: &[u8],
    aim: &Aim,
) -> StoreResult<()>
    requires stands { StandsWhereTold (S.objects part.old) digest.now links.old }
    ensures cause { HasCallsCause (S.faults part.old) (S.faults part.new) result }
    ensures ok { OnOk result (Told (S.objects part.old) (S.objects part.new) (λ old new. (dedupe : Bool) → IsAim dedupe old digest.now links.old name.now bytes.now aim.now
        → Sets (dedupe ≡ true) old digest.now links.old name.now (Some bytes.now) new links.new)) }
    ensures err { OnErr result (Told (S.objects part.old) (S.objects part.new) (λ old new. Keeps old digest.now links.old new links.new)) }
    ensures missing { OnMissing result ⊥ }
    ensures attains { OnOk result (Attains aim.now links.old name.now links.new) }
{
    match aim {
        Aim::Same => Ok(()),
        Aim::Whole => hold_bytes(part, alloc, digest, links, name, bytes),
        Aim::Link(origin) => hold_link(part, alloc, digest, links, name, origin),
    }
}

// How a repository may come to hold these bytes.
fn choose<S: Store>(
    part: &mut S,
    alloc: Global,
    digest: &Digest,
    links: &Links,
    dedupe: bool,
    name: &RepoName,
    bytes: &[u8],
) -> StoreResult<Aim>
    requires { StandsWhereTold (S.objects part.old) digest.now links.now }
    ensures cause { HasStoreCause (S.faults part.old) (S.faults part.new) result }
    ensures kept { S.objects part.new ≡ S.objects part.old }
    ensures missing { OnMissing result ⊥ }
    ensures ok { IfOk result (λ aim. IfSome (S.objects part.old) (λ told. IsAim dedupe told digest.now links.now name.now bytes.now aim)) }
{
    if holds_already(part, alloc, digest, links, name, bytes)? {
        return Ok(Aim::Same);
    }
    if !dedupe || bytes.is_empty() {
        return Ok(Aim::Whole);
    }
    match least_in(part, alloc, digest, links.tree(), bytes)? {
        Some(origin) => Ok(Aim::Link(origin)),
        None => Ok(Aim::Whole),
    }
}

// The least whole holder in a tree whose object has these bytes.
fn least_in<S: Store>(
    part: &mut S,
    alloc: Global,
    digest: &Digest,
    tree: &Tree,
    bytes: &[u8],
) -> StoreResult<Option<RepoName>>
    requires { IfSome (S.objects part.old) (λ told. AllByRecursion (λ e. IsSome (object_at told digest.now e.0)) tree.now.entries) }
    ensures cause { HasStoreCause (S.faults part.old) (S.faults part.new) result }
    ensures kept { S.objects part.new ≡ S.objects part.old }
    ensures missing { OnMissing result ⊥ }
    ensures ok { IfOk result (λ found. IfSome (S.objects part.old) (λ told. IsFirst (object_at told digest.now) bytes.now tree.now.entries found)) }
    ensures ordered { IsStrictlySortedBy byte_cmp (each (λ e. e.0) tree.now.entries) }
{
    for (name, origin) in tree.iter() {
        if whole_has(part, alloc, digest, name, origin, bytes)? {
            return Ok(Some(name.copy(alloc)?));
        }
    }
    Ok(None)
}

// Whether a holder is whole and its object, which is there, has these bytes.
fn whole_has<S: Store>(
    part: &mut S,
    alloc: Global,
    digest: &Digest,
    name: &RepoName,
    origin: &Option<RepoName>,
    bytes: &[u8],
) -> StoreResult<bool>
    requires { IfSome (S.objects part.old) (λ told. IsSome (object_at told digest.now name.now)) }
    ensures cause { HasStoreCause (S.faults part.old) (S.faults part.new) result }
    ensures kept { S.objects part.new ≡ S.objects part.old }
    ensures missing { OnMissing result ⊥ }
    ensures ok { IfOk result (λ same. IfSome (S.objects part.old) (λ told. IsTrue same ↔ HasBytes (object_at told digest.now) bytes.now name.now origin.now)) }
{
    match origin {
        Some(_) => Ok(false),
        None => object_is(part, alloc, digest, name, bytes),
    }
}

// Whether a repository holds these bytes.
fn holds_already<S: Store>(
    part: &mut S,
    alloc: Global,
    digest: &Digest,
    links: &Links,
    name: &RepoName,
    bytes: &[u8],
) -> StoreResult<bool>
    requires { StandsWhereTold (S.objects part.old) digest.now links.now }
    ensures cause { HasStoreCause (S.faults part.old) (S.faults part.new) result }
    ensures kept { S.objects part.new ≡ S.objects part.old }
    ensures missing { OnMissing result ⊥ }
    ensures ok { IfOk result (λ same. IfSome (S.objects part.old) (λ told. IsTrue same ↔ (held told digest.now name.now ≡ Some bytes.now))) }
{
    match links.source(name) {
        Some(source) => object_is(part, alloc, digest, source, bytes),
        None => Ok(false),
    }
}
