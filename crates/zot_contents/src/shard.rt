//! A shard of digests.
ghost use Rattle.std.specs.Prelude.{◌≡◌, IfOk, IfSome, OnErr, OnOk, map as each, option_map};
ghost use Rattle.std.proofs.Props.{props};
ghost use Rattle.zot_outside.specs.Faults.{HasStoreCause, OnMissing};
ghost use Rattle.zot_links.specs.Aims.{IsAimed};
ghost use Rattle.zot_outside.specs.Objects.{Told};
ghost use Rattle.zot_links.specs.Changes.{HasCallsCause};
ghost use Rattle.zot_links.specs.Meaning.{held};
ghost use Rattle.zot_contents.specs.Holdings.{AreAllHeld};
ghost use Rattle.zot_contents.specs.Listing.{place_of, places_of};
ghost use Rattle.zot_contents.specs.Pool.{AreSame, Gives, if_sound, plain_attach, plain_detach, plain_mount, size_of};
ghost use Rattle.zot_contents.specs.declared.pool_reply.PoolReply.TheVariants.{Done, Removed};
ghost use Rattle.zot_contents.specs.Shards.{AllOwn, AllStand, IsOfShard, KeepsTight, links_at};

use crate::digests::Digests;
use crate::holding::Holding;
use crate::listing::list;
use std::alloc::Global;
use zot_digest::{Digest, digest_of};
use zot_names::RepoName;
use zot_outside::{Store, StoreResult};

/// A shard of digests over a part of the store: who holds which bytes under each of its digests. What is held is a function of the part's objects; in memory it has who the holders are, and which of them are links.
#[derive(Drop)]
pub struct DigestShard<S: Store> {
    pub(crate) part: S,
    pub(crate) number: u32,
    pub(crate) dedupe: bool,
    pub(crate) digests: Digests,
    ghost own: { AllOwn number digests } by { Prim.hlevel props },
    ghost stand: { AllStand (S.objects part) number digests } by { Prim.hlevel props },
}

impl<S: Store> DigestShard<S> {
    /// A repository is to hold these bytes under a digest. With dedupe bytes of at least one byte become a link to the least whole holder whose object has them. Where it holds them already, nothing is done.
    pub fn attach(
        &mut self,
        alloc: Global,
        name: &RepoName,
        digest: &Digest,
        bytes: &[u8],
    ) -> StoreResult<()>
        requires { IsOfShard self.old.number digest.now }
        ensures cause { HasCallsCause (S.faults self.old.part) (S.faults self.new.part) result }
        ensures ok { OnOk result (Told (S.objects self.old.part) (S.objects self.new.part) (λ old new.
            Gives (plain_attach (held old) name.now digest.now bytes.now) Done (held new))) }
        ensures err { OnErr result (Told (S.objects self.old.part) (S.objects self.new.part) (λ old new. AreSame (held old) (held new))) }
        ensures missing { OnMissing result ⊥ }
        ensures form { OnOk result (IfSome (S.objects self.old.part) (λ told. IsAimed self.old.dedupe told digest.now (links_at self.old.digests digest.now) name.now bytes.now (links_at self.new.digests digest.now))) }
        ensures tight { KeepsTight self.old.dedupe self.old.number (S.objects self.old.part) self.old.digests (S.objects self.new.part) self.new.digests }
        ensures number { self.new.number ≡ self.old.number }
        ensures dedupe { self.new.dedupe ≡ self.old.dedupe }
    {
        self.digests.keep(alloc, digest)?;
        let attached = self
            .digests
            .attach(&mut self.part, alloc, digest, self.dedupe, name, bytes);
        self.digests.tidy(digest);
        attached
    }

    /// A repository is to hold nothing under a digest. The answer says whether it held anything.
    pub fn detach(&mut self, alloc: Global, name: &RepoName, digest: &Digest) -> StoreResult<bool>
        requires { IsOfShard self.old.number digest.now }
        ensures cause { HasCallsCause (S.faults self.old.part) (S.faults self.new.part) result }
        ensures ok { IfOk result (λ was. Told (S.objects self.old.part) (S.objects self.new.part) (λ old new.
            Gives (plain_detach (held old) name.now digest.now) (Removed was) (held new))) }
        ensures err { OnErr result (Told (S.objects self.old.part) (S.objects self.new.part) (λ old new. AreSame (held old) (held new))) }
        ensures missing { OnMissing result ⊥ }
        ensures tight { KeepsTight self.old.dedupe self.old.number (S.objects self.old.part) self.old.digests (S.objects self.new.part) self.new.digests }
        ensures number { self.new.number ≡ self.old.number }
        ensures dedupe { self.new.dedupe ≡ self.old.dedupe }
    {
        self.digests.keep(alloc, digest)?;
        let released = self.digests.release(&mut self.part, alloc, digest, name);
        self.digests.tidy(digest);
        released
    }

    /// The bytes that a repository holds under a digest, or `None` where it isn't a holder.
    pub fn read(
        &mut self,
        alloc: Global,
        name: &RepoName,
        digest: &Digest,
    ) -> StoreResult<Option<Vec<u8>>>
        requires { IsOfShard self.old.number digest.now }
        ensures cause { HasStoreCause (S.faults self.old.part) (S.faults self.new.part) result }
        ensures kept { S.objects self.new.part ≡ S.objects self.old.part }
        ensures ok { IfOk result (λ found. IfSome (S.objects self.old.part) (λ told. option_map (λ v. v.items) found ≡ held told digest.now name.now)) }
        ensures missing { OnMissing result ⊥ }
        ensures digests { self.new.digests ≡ self.old.digests }
        ensures number { self.new.number ≡ self.old.number }
        ensures dedupe { self.new.dedupe ≡ self.old.dedupe }
    {
        self.digests.contents(&mut self.part, alloc, digest, name)
    }

    /// A repository is to hold what another one holds under a digest, where that is sound. The answer is its number of bytes, or `None` where the other holds no sound bytes.
    pub fn mount(
        &mut self,
        alloc: Global,
        name: &RepoName,
        from: &RepoName,
        digest: &Digest,
    ) -> StoreResult<Option<u64>>
        requires { IsOfShard self.old.number digest.now }
        ensures cause { HasCallsCause (S.faults self.old.part) (S.faults self.new.part) result }
        ensures ok { IfOk result (λ size. Told (S.objects self.old.part) (S.objects self.new.part) (λ old new.
            Gives (plain_mount (held old) name.now from.now digest.now) (size_of size) (held new))) }
        ensures err { OnErr result (Told (S.objects self.old.part) (S.objects self.new.part) (λ old new. AreSame (held old) (held new))) }
        ensures missing { OnMissing result ⊥ }
        ensures tight { KeepsTight self.old.dedupe self.old.number (S.objects self.old.part) self.old.digests (S.objects self.new.part) self.new.digests }
        ensures number { self.new.number ≡ self.old.number }
        ensures dedupe { self.new.dedupe ≡ self.old.dedupe }
    {
        let Some(bytes) = self.sound(alloc, from, digest)? else {
            return Ok(None);
        };
        self.attach(alloc, name, digest, bytes.as_slice())?;
        Ok(Some(bytes.len() as u64))
    }

    // The sound bytes that a repository holds under a digest.
    fn sound(
        &mut self,
        alloc: Global,
        name: &RepoName,
        digest: &Digest,
    ) -> StoreResult<Option<Vec<u8>>>
        requires { IsOfShard self.old.number digest.now }
        ensures cause { HasStoreCause (S.faults self.old.part) (S.faults self.new.part) result }
        ensures kept { S.objects self.new.part ≡ S.objects self.old.part }
        ensures ok { IfOk result (λ found. IfSome (S.objects self.old.part) (λ told. option_map (λ v. v.items) found ≡ if_sound digest.now (held told digest.now name.now))) }
        ensures missing { OnMissing result ⊥ }
        ensures digests { self.new.digests ≡ self.old.digests }
        ensures number { self.new.number ≡ self.old.number }
        ensures dedupe { self.new.dedupe ≡ self.old.dedupe }
    {
        let Some(bytes) = self.read(alloc, name, digest)? else {
            return Ok(None);
        };
        if digest_of(bytes.as_slice()) == *digest {
            Ok(Some(bytes))
        } else {
            Ok(None)
        }
    }

    /// All that is held under the shard's digests, in their order and, under one, in that of the names. The sizes are asked of the store; no bytes are read.
    pub fn holdings(&mut self, alloc: Global) -> StoreResult<Vec<Holding>>
        ensures cause { HasStoreCause (S.faults self.old.part) (S.faults self.new.part) result }
        ensures kept { S.objects self.new.part ≡ S.objects self.old.part }
        ensures ok { IfOk result (λ list. IfSome (S.objects self.old.part) (λ told. AreAllHeld self.old.number (held told) list.items)) }
        ensures places { IfOk result (λ list. each place_of list.items ≡ places_of self.old.digests) }
        ensures missing { OnMissing result ⊥ }
        ensures digests { self.new.digests ≡ self.old.digests }
        ensures number { self.new.number ≡ self.old.number }
        ensures dedupe { self.new.dedupe ≡ self.old.dedupe }
    {
        list(&mut self.part, alloc, &self.digests)
    }

    /// Gives the part back. Takes no memory.
    pub fn close(self) -> S
        ensures { result ≡ self.part }
    {
        self.part
    }
}
