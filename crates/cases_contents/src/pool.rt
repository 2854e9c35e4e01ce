//! A shard of digests that is asked by calls.
ghost use Rattle.std.specs.Prelude.{◌≡◌, IsTrue};
ghost use Rattle.zot_contents.specs.Shards.{IsCallOf};

use std::alloc::Global;
use zot_contents::{DigestShard, PoolCall, PoolReply, Unopened, shard_of};
use zot_noting::NotingStore;

/// A shard of digests, with its number.
#[derive(Drop)]
pub struct Pool {
    shard: DigestShard<NotingStore>,
    number: u32,
    ghost same: { shard.number ≡ number },
}

impl Pool {
    /// Opens the shard of a number.
    pub fn open(
        part: NotingStore,
        alloc: Global,
        number: u32,
        dedupe: bool,
    ) -> Result<Pool, Unopened<NotingStore>> {
        match DigestShard::open(part, alloc, number, dedupe) {
            Ok(shard) => Ok(Pool { shard, number }),
            Err(unopened) => Err(unopened),
        }
    }

    /// Makes a call, and gives its answer. A call on a digest of another shard is answered `Nothing`.
    pub fn ask(&mut self, alloc: Global, call: &PoolCall) -> PoolReply {
        if is_call_of(self.number, call) {
            self.shard.step(alloc, call)
        } else {
            PoolReply::Nothing
        }
    }

    /// Gives the part back.
    pub fn close(self) -> NotingStore {
        self.shard.close()
    }
}

// Whether a call is one on a digest of the shard, or on all of them.
fn is_call_of(number: u32, call: &PoolCall) -> bool
    ensures { IsTrue result → IsCallOf number call.now }
{
    match call {
        PoolCall::Holdings => true,
        PoolCall::Attach(_, digest, _) => shard_of(digest) == number,
        PoolCall::Mount(_, _, digest) => shard_of(digest) == number,
        PoolCall::Read(_, digest) => shard_of(digest) == number,
        PoolCall::Detach(_, digest) => shard_of(digest) == number,
    }
}
