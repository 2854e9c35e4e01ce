//! All shards of digests under one value.
ghost use Rattle.std.specs.Prelude.{◌≡◌, ◌<◌, IfOk, IfSome, IsSome, OnErr, OnOk, map as each, option_map, slice_index};
ghost use Rattle.std.specs.List.{All};
ghost use Rattle.std.specs.List.Sorted.{IsStrictlySortedBy};
ghost use Rattle.std.specs.Result.{result_err};
ghost use Rattle.zot_digest.specs.ByteMap.{byte_cmp};
ghost use Rattle.zot_contents.specs.Answers.{OnLook};
ghost use Rattle.zot_contents.specs.Holders.{digest_in};
ghost use Rattle.zot_contents.specs.Holdings.{AreAllHeld, key_of};
ghost use Rattle.zot_contents.specs.Pool.{AreSame, Gives, MayAnswer, ShardState, plain_attach, plain_detach, plain_mount, size_of};
ghost use Rattle.zot_contents.specs.Shards.{IsCallOf, IsOfShard, shard_of, shards};
ghost use Rattle.zot_contents.specs.declared.pool_reply.PoolReply.TheVariants.{Done, Removed};
ghost use Rattle.zot_pool.specs.Pools.{AreDeduped, AreNumbered, AreTightPool, BothHold, ChangesOnly, HasPoolCause, HasReadCause, HasRoom, faults_of, holds, number_in, objects_of, refusal};

use crate::answers::pooled;
use crate::pool_error::PoolError;
use std::alloc::Global;
use zot_contents::{DigestShard, Holding, PoolCall, PoolReply, shard_of};
use zot_digest::Digest;
use zot_names::RepoName;
use zot_outside::Store;

/// All shards of digests, each over a part of the store: who holds which bytes under each digest. What is held is a function of the parts' objects. Each call goes to the shard of its digest; a fault is answered only where the count of that shard's part rose.
#[derive(Drop)]
pub struct Pool<S: Store> {
    pub(crate) shards: Vec<DigestShard<S>>,
    // Where the parts are given back, so that closing takes no memory.
    pub(crate) room: Vec<S>,
    ghost numbered: { AreNumbered shards.items },
    ghost roomy: { HasRoom room },
}

impl<S: Store> Pool<S> {
    /// A repository is to hold these bytes under a digest. With dedupe bytes of at least one byte become a link to the least whole holder whose object has them. An error leaves what is held as it was.
    pub fn attach(
        &mut self,
        alloc: Global,
        name: &RepoName,
        digest: &Digest,
        bytes: &[u8],
    ) -> Result<(), PoolError>
        ensures cause { HasPoolCause (shard_of digest.now) (faults_of self.old.shards.items) (faults_of self.new.shards.items) (result_err result) }
        ensures ok { OnOk result (BothHold (holds (objects_of self.old.shards.items)) (holds (objects_of self.new.shards.items)) (λ old new.
            Gives (plain_attach old name.now digest.now bytes.now) Done new)) }
        ensures err { OnErr result (BothHold (holds (objects_of self.old.shards.items)) (holds (objects_of self.new.shards.items)) AreSame) }
        ensures beside { ChangesOnly (shard_of digest.now) self.old.shards.items self.new.shards.items }
        ensures tight { AreDeduped self.old.shards.items → AreTightPool self.old.shards.items → AreTightPool self.new.shards.items }
        ensures dedupe { AreDeduped self.old.shards.items → AreDeduped self.new.shards.items }
    {
        let shard = &mut self.shards[shard_of(digest) as usize];
        pooled(shard.attach(alloc, name, digest, bytes))
    }

    /// A repository is to hold what another one holds under a digest, where that is sound. The answer is its number of bytes, or `None` where the other holds no sound bytes. An error leaves what is held as it was.
    pub fn mount(
        &mut self,
        alloc: Global,
        name: &RepoName,
        from: &RepoName,
        digest: &Digest,
    ) -> Result<Option<u64>, PoolError>
        ensures cause { HasPoolCause (shard_of digest.now) (faults_of self.old.shards.items) (faults_of self.new.shards.items) (result_err result) }
        ensures ok { IfOk result (λ size. BothHold (holds (objects_of self.old.shards.items)) (holds (objects_of self.new.shards.items)) (λ old new.
            Gives (plain_mount old name.now from.now digest.now) (size_of size) new)) }
        ensures err { OnErr result (BothHold (holds (objects_of self.old.shards.items)) (holds (objects_of self.new.shards.items)) AreSame) }
        ensures beside { ChangesOnly (shard_of digest.now) self.old.shards.items self.new.shards.items }
        ensures tight { AreDeduped self.old.shards.items → AreTightPool self.old.shards.items → AreTightPool self.new.shards.items }
        ensures dedupe { AreDeduped self.old.shards.items → AreDeduped self.new.shards.items }
    {
        let shard = &mut self.shards[shard_of(digest) as usize];
        pooled(shard.mount(alloc, name, from, digest))
    }

    /// The bytes that a repository holds under a digest, or `None` where it isn't a holder. Every part keeps its objects.
    pub fn read(
        &mut self,
        alloc: Global,
        name: &RepoName,
        digest: &Digest,
    ) -> Result<Option<Vec<u8>>, PoolError>
        ensures cause { HasReadCause (shard_of digest.now) (faults_of self.old.shards.items) (faults_of self.new.shards.items) (result_err result) }
        ensures kept { objects_of self.new.shards.items ≡ objects_of self.old.shards.items }
        ensures ok { IfOk result (λ found. IfSome (holds (objects_of self.old.shards.items)) (λ held. option_map (λ v. v.items) found ≡ held digest.now name.now)) }
        ensures beside { ChangesOnly (shard_of digest.now) self.old.shards.items self.new.shards.items }
        ensures tight { AreTightPool self.old.shards.items → AreTightPool self.new.shards.items }
        ensures dedupe { AreDeduped self.old.shards.items → AreDeduped self.new.shards.items }
    {
        let shard = &mut self.shards[shard_of(digest) as usize];
        pooled(shard.read(alloc, name, digest))
    }

    /// A repository is to hold nothing under a digest. The answer says whether it held anything. An error leaves what is held as it was.
    pub fn detach(
        &mut self,
        alloc: Global,
        name: &RepoName,
        digest: &Digest,
    ) -> Result<bool, PoolError>
        ensures cause { HasPoolCause (shard_of digest.now) (faults_of self.old.shards.items) (faults_of self.new.shards.items) (result_err result) }
        ensures ok { IfOk result (λ was. BothHold (holds (objects_of self.old.shards.items)) (holds (objects_of self.new.shards.items)) (λ old new.
            Gives (plain_detach old name.now digest.now) (Removed was) new)) }
        ensures err { OnErr result (BothHold (holds (objects_of self.old.shards.items)) (holds (objects_of self.new.shards.items)) AreSame) }
        ensures beside { ChangesOnly (shard_of digest.now) self.old.shards.items self.new.shards.items }
        ensures tight { AreDeduped self.old.shards.items → AreTightPool self.old.shards.items → AreTightPool self.new.shards.items }
        ensures dedupe { AreDeduped self.old.shards.items → AreDeduped self.new.shards.items }
    {
        let shard = &mut self.shards[shard_of(digest) as usize];
        pooled(shard.detach(alloc, name, digest))
    }
    /// What all repositories hold under the digests of the shard with this number, in the order of the digests and, under one, of the names. Every part keeps its objects.
    pub fn holdings(&mut self, alloc: Global, number: u32) -> Result<Vec<Holding>, PoolError>
        requires { number < shards }
        ensures cause { HasReadCause number (faults_of self.old.shards.items) (faults_of self.new.shards.items) (result_err result) }
        ensures kept { objects_of self.new.shards.items ≡ objects_of self.old.shards.items }
        ensures ok { IfOk result (λ list. IfSome (holds (objects_of self.old.shards.items)) (λ held. AreAllHeld number held list.items)) }
        ensures own { IfOk result (λ list. All (λ h. IsOfShard number h.digest) list.items) }
        ensures ordered { IfOk result (λ list. IsStrictlySortedBy byte_cmp (each key_of list.items)) }
        ensures beside { ChangesOnly number self.old.shards.items self.new.shards.items }
        ensures tight { AreTightPool self.old.shards.items → AreTightPool self.new.shards.items }
        ensures dedupe { AreDeduped self.old.shards.items → AreDeduped self.new.shards.items }
    {
        let shard = &mut self.shards[number as usize];
        pooled(shard.holdings(alloc))
    }

    /// Any call on a digest, answered by its shard.
    pub fn call(&mut self, alloc: Global, call: &PoolCall) -> PoolReply
        requires { IsSome (digest_in call.now) }
        ensures answer { BothHold (holds (objects_of self.old.shards.items)) (holds (objects_of self.new.shards.items)) (λ old new.
            MayAnswer (number_in call.now) (record { held = old; faults = slice_index (faults_of self.old.shards.items) (number_in call.now) }) call.now result
            (record { held = new; faults = slice_index (faults_of self.new.shards.items) (number_in call.now) })) }
        ensures cause { HasPoolCause (number_in call.now) (faults_of self.old.shards.items) (faults_of self.new.shards.items) (refusal result) }
        ensures looks { OnLook call.now (objects_of self.new.shards.items ≡ objects_of self.old.shards.items) }
        ensures beside { ChangesOnly (number_in call.now) self.old.shards.items self.new.shards.items }
        ensures tight { AreDeduped self.old.shards.items → AreTightPool self.old.shards.items → AreTightPool self.new.shards.items }
        ensures dedupe { AreDeduped self.old.shards.items → AreDeduped self.new.shards.items }
    {
        let shard = &mut self.shards[shard_in(call) as usize];
        shard.step(alloc, call)
    }
}

// The shard of a call's digest.
fn shard_in(call: &PoolCall) -> u32
    requires { IsSome (digest_in call.now) }
    ensures value { result ≡ number_in call.now }
    ensures within { result < shards }
    ensures call { IsCallOf result call.now }
{
    match call {
        PoolCall::Attach(_, digest, _)
        | PoolCall::Mount(_, _, digest)
        | PoolCall::Read(_, digest)
        | PoolCall::Detach(_, digest) => shard_of(digest),
        PoolCall::Holdings => unreachable!(),
    }
}
