//! A shard of digests opened over a part of the store.
ghost use Rattle.std.specs.Prelude.{◌≡◌, ◌↔◌, ℕ, IfErr, IfOk, IfSome, IsSome, List, OnOk};
ghost use Rattle.std.specs.FinMap as map;
ghost use Rattle.zot_links.specs.Meaning.{Stands, record_path};
ghost use Rattle.zot_links.specs.Opening.{HasObjects, LacksMeaning};
ghost use Rattle.zot_contents.specs.Opening.{HasFaultCause, HaveMeaning, IsFirstBad, OnBadMeta, OnFault, WhereFound};
ghost use Rattle.zot_contents.specs.Shards.{AllOwn, AllStand, AreTight, IsTightTree};
ghost use Rattle.zot_outside.specs.Objects.{Objects};

use crate::digests::Digests;
use crate::layout_fault::LayoutFault;
use crate::shard::DigestShard;
use crate::unopened::Unopened;
use crate::walking::find_digests;
use std::alloc::{AllocError, Global};
use zot_digest::{Bytes, Digest, Words};
use zot_links::{Links, LinksError, open_links, record_path};
use zot_outside::{Store, StoreError};

impl<S: Store> DigestShard<S> {
    /// The shard of this number, opened over its part of the store: who holds what is a matter of the part's objects, which aren't changed. The part's paths are walked once, and the record of each digest that has one is read once. Objects at other paths, and those of digests of other shards, are left alone.
    ///
    /// `BadMeta` comes exactly where a digest of the shard has no meaning, for the least one. `Failed` comes only where the part failed.
    pub fn open(
        part: S,
        alloc: Global,
        number: u32,
        dedupe: bool,
    ) -> Result<DigestShard<S>, Unopened<S>>
        ensures part { IfOk result (λ shard. S.objects shard.part ≡ S.objects part) }
        ensures back { IfErr result (λ unopened. S.objects unopened.part ≡ S.objects part) }
        ensures number { IfOk result (λ shard. shard.number ≡ number) }
        ensures dedupe { IfOk result (λ shard. shard.dedupe ≡ dedupe) }
        ensures meaning { OnOk result (IfSome (S.objects part) (λ told. HaveMeaning told number)) }
        ensures tight { IfOk result (λ shard. IfSome (S.objects part) (λ told. IsTightTree told number → AreTight told number shard.digests)) }
        ensures cause { IfErr result (λ unopened. HasFaultCause (S.faults part) (S.faults unopened.part) unopened.fault) }
        ensures quiet { IfOk result (λ shard. S.faults shard.part ≡ S.faults part) }
        ensures bad { IfErr result (λ unopened. OnBadMeta unopened.fault (λ path text. IfSome (S.objects part) (λ told. IsFirstBad told number path text))) }
    {
        let mut part = part;
        match read_digests(&mut part, alloc, number) {
            Ok(digests) => Ok(DigestShard {
                part,
                number,
                dedupe,
                digests,
            }),
            Err(fault) => Err(Unopened { part, fault }),
        }
    }
}

// The digests of a shard, with the holders that their objects stand for.
fn read_digests<S: Store>(part: &mut S, alloc: Global, number: u32) -> Result<Digests, LayoutFault>
    ensures cause { IfErr result (HasFaultCause (S.faults part.old) (S.faults part.new)) }
    ensures quiet { OnOk result (S.faults part.new ≡ S.faults part.old) }
    ensures kept { S.objects part.new ≡ S.objects part.old }
    ensures own { IfOk result (AllOwn number) }
    ensures stand { IfOk result (AllStand (S.objects part.old) number) }
    ensures tight { IfOk result (λ digests. IfSome (S.objects part.old) (λ told. IsTightTree told number → AreTight told number digests)) }
    ensures bad { IfErr result (λ fault. OnBadMeta fault (λ path text. IfSome (S.objects part.old) (λ told. IsFirstBad told number path text))) }
{
    match find_digests(part, alloc, number) {
        Ok(found) => open_each(part, alloc, &found),
        Err(StoreError::Missing | StoreError::Failed) => Err(LayoutFault::Failed),
        Err(StoreError::NoMemory) => Err(LayoutFault::NoMemory),
    }
}

// The holders that the objects of each digest found stand for, digest by digest in their order. One without holders isn't kept.
fn open_each<S: Store>(part: &mut S, alloc: Global, found: &Digests) -> Result<Digests, LayoutFault>
    ensures cause { IfErr result (HasFaultCause (S.faults part.old) (S.faults part.new)) }
    ensures quiet { OnOk result (S.faults part.new ≡ S.faults part.old) }
    ensures kept { S.objects part.new ≡ S.objects part.old }
    ensures among { IfOk result (λ digests. (digest : List ℕ) → IsSome (map.get digests digest) → IsSome (map.get found.now digest)) }
    ensures stand { IfOk result (λ digests. WhereFound (S.objects part.old) found.now (λ told number. AllStand (Some told) number digests)) }
    ensures tight { IfOk result (λ digests. WhereFound (S.objects part.old) found.now (λ told number. IsTightTree told number → AreTight told number digests)) }
    ensures bad { IfErr result (λ fault. OnBadMeta fault (λ path text. WhereFound (S.objects part.old) found.now (λ told number. IsFirstBad told number path text))) }
{
    let mut digests = Digests::new(alloc);
    for (digest, holders) in found.tree().iter() {
        let links = open_digest(part, alloc, digest, holders)?;
        digests.set(*digest, links)?;
        digests.tidy(digest);
    }
    Ok(digests)
}

// The holders that a digest's objects stand for, given the repositories that have one.
fn open_digest<S: Store>(
    part: &mut S,
    alloc: Global,
    digest: &Digest,
    holders: &Links,
) -> Result<Links, LayoutFault>
    ensures cause { IfErr result (HasFaultCause (S.faults part.old) (S.faults part.new)) }
    ensures quiet { OnOk result (S.faults part.new ≡ S.faults part.old) }
    ensures kept { S.objects part.new ≡ S.objects part.old }
    ensures ok { IfOk result (λ links. IfSome (S.objects part.old) (λ told. HasObjects told digest.now holders.now → Stands told digest.now links)) }
    ensures names { IfOk result (λ links. (name : List ℕ) → IsSome (map.get links name) ↔ IsSome (map.get holders.now name)) }
    ensures bad { IfErr result (λ fault. OnBadMeta fault (λ path text. IfSome (S.objects part.old) (λ told. HasObjects told digest.now holders.now → (path ≡ record_path digest.now) × LacksMeaning told digest.now text))) }
{
    match open_links(part, alloc, digest, holders) {
        Ok(links) => Ok(links),
        Err(LinksError::Bad(text)) => Err(bad_record(alloc, digest, text)),
        Err(LinksError::Failed) => Err(LayoutFault::Failed),
        Err(LinksError::NoMemory) => Err(LayoutFault::NoMemory),
    }
}

// Why a shard isn't opened where the record of a digest is refused.
fn bad_record(alloc: Global, digest: &Digest, text: Vec<u8>) -> LayoutFault
    ensures refused { OnBadMeta result (λ path bytes. (path ≡ record_path digest.now) × (bytes ≡ text.items)) }
    ensures failed { OnFault result ⊥ }
{
    match record_path(alloc, digest) {
        Ok(path) => LayoutFault::BadMeta {
            path: Words::new(path),
            text: Bytes::new(text),
        },
        Err(_) => LayoutFault::NoMemory,
    }
}
