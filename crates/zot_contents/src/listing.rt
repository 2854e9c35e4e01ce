//! All that is held under the digests of a shard.
ghost use Rattle.std.specs.Prelude.{◌≡◌, ◌∷◌, ◌++◌, ℕ, List, [], IfOk, IfSome, IsSome, OnOk, map as each};
ghost use Rattle.std.specs.FinMap as map;
ghost use Rattle.zot_outside.specs.Faults.{HasStoreCause, OnMissing};
ghost use Rattle.zot_links.specs.Meaning.{StandsWhereTold};
ghost use Rattle.zot_contents.specs.Listing.{holding_of, holdings_of, holdings_under, place_of, places_of, places_under};
ghost use Rattle.zot_contents.specs.Shards.{StandsAt};

use crate::digests::Digests;
use crate::holding::Holding;
use std::alloc::{AllocError, Global};
use zot_digest::Digest;
use zot_links::{Links, size};
use zot_names::RepoName;
use zot_outside::{Store, StoreResult};

/// What is held under all digests that are kept, in their order and, under one, in that of the names. The sizes are asked of the store; no bytes are read.
pub fn list<S: Store>(part: &mut S, alloc: Global, digests: &Digests) -> StoreResult<Vec<Holding>>
    requires { (digest : List ℕ) → IsSome (map.get digests.now digest) → StandsAt (S.objects part.old) digests.now digest }
    ensures cause { HasStoreCause (S.faults part.old) (S.faults part.new) result }
    ensures kept { S.objects part.new ≡ S.objects part.old }
    ensures missing { OnMissing result ⊥ }
    ensures ok { IfOk result (λ list. IfSome (S.objects part.old) (λ told. list.items ≡ holdings_of told digests.now)) }
    ensures places { IfOk result (λ list. each place_of list.items ≡ places_of digests.now) }
{
    let mut holdings = Vec::new(alloc);
    for (digest, links) in digests.tree().iter() {
        list_digest(part, alloc, digest, links, &mut holdings)?;
    }
    Ok(holdings)
}

// Adds what the holders of a digest hold.
fn list_digest<S: Store>(
    part: &mut S,
    alloc: Global,
    digest: &Digest,
    links: &Links,
    holdings: &mut Vec<Holding>,
) -> StoreResult<()>
    requires { StandsWhereTold (S.objects part.old) digest.now links.now }
    ensures cause { HasStoreCause (S.faults part.old) (S.faults part.new) result }
    ensures kept { S.objects part.new ≡ S.objects part.old }
    ensures missing { OnMissing result ⊥ }
    ensures ok { OnOk result (IfSome (S.objects part.old) (λ told. holdings.new.items ≡ holdings.old.items ++ holdings_under told digest.now links.now)) }
    ensures places { OnOk result (each place_of holdings.new.items ≡ each place_of holdings.old.items ++ places_under digest.now links.now) }
{
    for (name, _) in links.tree().iter() {
        let holding = holding_of(part, alloc, digest, links, name)?;
        push(holdings, holding)?;
    }
    Ok(())
}

// Adds a holding.
fn push(holdings: &mut Vec<Holding>, holding: Holding) -> Result<(), AllocError>
    ensures { OnOk result (holdings.new.items ≡ holdings.old.items ++ (holding ∷ [])) }
{
    holdings.push(holding)?;
    Ok(())
}

// What one holder of a digest holds.
fn holding_of<S: Store>(
    part: &mut S,
    alloc: Global,
    digest: &Digest,
    links: &Links,
    name: &RepoName,
) -> StoreResult<Holding>
    requires { StandsWhereTold (S.objects part.old) digest.now links.now }
    ensures cause { HasStoreCause (S.faults part.old) (S.faults part.new) result }
    ensures kept { S.objects part.new ≡ S.objects part.old }
    ensures missing { OnMissing result ⊥ }
    ensures ok { IfOk result (λ holding. IfSome (S.objects part.old) (λ told. holding ≡ holding_of told digest.now name.now)) }
    ensures place { IfOk result (λ holding. place_of holding ≡ (digest.now, name.now)) }
{
    let name_copy = name.copy(alloc)?;
    let size = size(part, alloc, digest, links, name)?;
    Ok(Holding {
        name: name_copy,
        digest: *digest,
        size: size.unwrap_or(0),
    })
}
