//! Calls on a shard of digests, as values.
ghost use Rattle.std.specs.Prelude.{◌≡◌, option_map, map as each};
ghost use Rattle.zot_outside.specs.Faults.{OnMissing};
ghost use Rattle.zot_outside.specs.Objects.{Told};
ghost use Rattle.zot_links.specs.Meaning.{held};
ghost use Rattle.zot_contents.specs.Answers.{HasReplyCause, OnHeld, OnLook, OnMissed, Refuses, Replies};
ghost use Rattle.zot_contents.specs.Listing.{place_of, places_of};
ghost use Rattle.zot_contents.specs.Pool.{MayAnswer, content_of, size_of};
ghost use Rattle.zot_contents.specs.declared.pool_reply.PoolReply.TheVariants as replies;
ghost use Rattle.zot_contents.specs.Shards.{IsCallOf, KeepsTight};

use crate::holding::Holding;
use crate::holding_list::HoldingList;
use crate::pool_call::PoolCall;
use crate::pool_reply::PoolReply;
use crate::shard::DigestShard;
use std::alloc::Global;
use zot_digest::Bytes;
use zot_outside::{Store, StoreError, StoreResult};

impl<S: Store> DigestShard<S> {
    /// Makes a call and gives its answer: `Failed` where the store failed, and `NoMemory` where memory ran out; then all is held as before.
    pub fn step(&mut self, alloc: Global, call: &PoolCall) -> PoolReply
        requires { IsCallOf self.old.number call.now }
        ensures answer { Told (S.objects self.old.part) (S.objects self.new.part) (λ before after.
            MayAnswer self.old.number (record { held = held before; faults = S.faults self.old.part }) call.now result (record { held = held after; faults = S.faults self.new.part })) }
        ensures cause { HasReplyCause (S.faults self.old.part) (S.faults self.new.part) result }
        ensures looks { OnLook call.now (S.objects self.new.part ≡ S.objects self.old.part) }
        ensures places { OnHeld result (λ list. each place_of list ≡ places_of self.old.digests) }
        ensures tight { KeepsTight self.old.dedupe self.old.number (S.objects self.old.part) self.old.digests (S.objects self.new.part) self.new.digests }
        ensures number { self.new.number ≡ self.old.number }
        ensures dedupe { self.new.dedupe ≡ self.old.dedupe }
    {
        match call {
            PoolCall::Holdings => listed(self.holdings(alloc)),
            PoolCall::Attach(name, digest, bytes) => {
                done(self.attach(alloc, name, digest, bytes.as_slice()))
            }
            PoolCall::Mount(name, from, digest) => sized(self.mount(alloc, name, from, digest)),
            PoolCall::Read(name, digest) => content(self.read(alloc, name, digest)),
            PoolCall::Detach(name, digest) => removed(self.detach(alloc, name, digest)),
        }
    }
}

// The answer to a list.
fn listed(list: StoreResult<Vec<Holding>>) -> PoolReply
    requires { OnMissing list ⊥ }
    ensures { Replies (λ l. replies.Held l.items) list result }
{
    match list {
        Ok(holdings) => PoolReply::Held(HoldingList::new(holdings)),
        Err(error) => refused(error),
    }
}

// The answer to an attach.
fn done(attached: StoreResult<()>) -> PoolReply
    requires { OnMissing attached ⊥ }
    ensures { Replies (λ _. replies.Done) attached result }
{
    match attached {
        Ok(()) => PoolReply::Done,
        Err(error) => refused(error),
    }
}

// The answer to a mount.
fn sized(mounted: StoreResult<Option<u64>>) -> PoolReply
    requires { OnMissing mounted ⊥ }
    ensures { Replies size_of mounted result }
{
    match mounted {
        Ok(Some(size)) => PoolReply::Size(size),
        Ok(None) => PoolReply::Nothing,
        Err(error) => refused(error),
    }
}

// The answer to a read.
fn content(found: StoreResult<Option<Vec<u8>>>) -> PoolReply
    requires { OnMissing found ⊥ }
    ensures { Replies (λ f. content_of (option_map (λ v. v.items) f)) found result }
{
    match found {
        Ok(Some(bytes)) => PoolReply::Content(Bytes::new(bytes)),
        Ok(None) => PoolReply::Nothing,
        Err(error) => refused(error),
    }
}

// The answer to a detach.
fn removed(detached: StoreResult<bool>) -> PoolReply
    requires { OnMissing detached ⊥ }
    ensures { Replies replies.Removed detached result }
{
    match detached {
        Ok(was) => PoolReply::Removed(was),
        Err(error) => refused(error),
    }
}

// The answer to an error.
fn refused(error: StoreError) -> PoolReply
    requires { OnMissed error ⊥ }
    ensures { Refuses error result }
{
    match error {
        StoreError::Missing => unreachable!(),
        StoreError::Failed => PoolReply::Failed,
        StoreError::NoMemory => PoolReply::NoMemory,
    }
}
