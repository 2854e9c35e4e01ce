//! Opening a pool over its parts, and closing it.
ghost use Rattle.std.specs.Prelude.{◌≡◌, ◌≤◌, ◌++◌, ◌+◌, IfErr, IfOk, OnOk, [], length, map as each, true, vec_len};
ghost use Rattle.std.specs.Vec.{vec_capacity};
ghost use Rattle.zot_contents.specs.Shards.{shards};
ghost use Rattle.zot_pool.specs.Opening.{AllHaveMeaning, AreOpened, AreTightTrees, HasOpenCause, IsFirstBadPart, OnBadRecord, StopsAt, open_error};
ghost use Rattle.zot_pool.specs.Pools.{AreDeduped, AreTightPool, faults_of, objects_of};

use crate::pool::Pool;
use crate::pool_open_error::PoolOpenError;
use crate::room::{put_first, put_last};
use crate::unopened_pool::UnopenedPool;
use std::alloc::Global;
use zot_contents::{DigestShard, LayoutFault, SHARDS};
use zot_outside::Store;

impl<S: Store + Drop> Pool<S> {
    /// Opens the shards over their parts, of which there are sixteen, in their order. The room in which `close` gives the parts back is that in which they were given. A refusal gives them back, so that the count of the one that failed can be seen; of the shards that have a digest without a meaning the first is answered.
    pub fn open(parts: Vec<S>, alloc: Global, dedupe: bool) -> Result<Pool<S>, UnopenedPool<S>>
        requires { length parts.items ≡ shards }
        ensures objects { IfOk result (λ pool. objects_of pool.shards.items ≡ each S.objects parts.items) }
        ensures quiet { IfOk result (λ pool. faults_of pool.shards.items ≡ each S.faults parts.items) }
        ensures meaning { OnOk result (AllHaveMeaning (each S.objects parts.items)) }
        ensures tight { IfOk result (λ pool. AreTightTrees (each S.objects parts.items) → AreTightPool pool.shards.items) }
        ensures dedupe { IfOk result (λ pool. dedupe ≡ true → AreDeduped pool.shards.items) }
        ensures back { IfErr result (λ unopened. each S.objects unopened.parts.items ≡ each S.objects parts.items) }
        ensures cause { IfErr result (λ unopened. HasOpenCause (each S.faults parts.items) (each S.faults unopened.parts.items) unopened.error) }
        ensures bad { IfErr result (λ unopened. OnBadRecord unopened.error (IsFirstBadPart (each S.objects parts.items))) }
    {
        let mut parts = parts;
        let mut shards = match Vec::with_capacity(alloc, SHARDS as usize) {
            Ok(shards) => shards,
            Err(_) => {
                return Err(UnopenedPool {
                    parts,
                    error: PoolOpenError::NoMemory,
                });
            }
        };
        match open_each(&mut parts, alloc, dedupe, &mut shards) {
            Ok(()) => Ok(Pool {
                shards,
                room: parts,
            }),
            Err(error) => {
                give_back(shards, &mut parts);
                Err(UnopenedPool { parts, error })
            }
        }
    }

    /// Gives the parts back, in their order. Takes no memory.
    pub fn close(self) -> Vec<S>
        ensures parts { result.items ≡ each (λ s. s.part) self.shards.items }
        ensures tight { AreTightPool self.shards.items → AreTightTrees (each S.objects result.items) }
    {
        let mut parts = self.room;
        give_back(self.shards, &mut parts);
        parts
    }
}

// Opens the shards over the parts one after another, and leaves those parts that are over none.
fn open_each<S: Store + Drop>(
    parts: &mut Vec<S>,
    alloc: Global,
    dedupe: bool,
    owned: &mut Vec<DigestShard<S>>,
) -> Result<(), PoolOpenError>
    requires many { length parts.old.items ≡ shards }
    requires first { owned.old.items ≡ [] }
    requires room { shards ≤ vec_capacity owned.old }
    ensures ok { OnOk result (AreOpened dedupe 0 parts.old.items owned.new.items) }
    ensures left { OnOk result (parts.new.items ≡ []) }
    ensures err { IfErr result (StopsAt dedupe parts.old.items owned.new.items parts.new.items) }
    ensures capacity { vec_capacity parts.old ≤ vec_capacity parts.new }
{
    for number in 0..SHARDS {
        let part = parts.remove(0);
        match DigestShard::open(part, alloc, number, dedupe) {
            Ok(shard) => put_last(owned, shard),
            Err(unopened) => {
                put_first(parts, unopened.part);
                return Err(refused(unopened.fault, number));
            }
        }
    }
    Ok(())
}

// The error for what the shard with this number answers.
fn refused(fault: LayoutFault, number: u32) -> PoolOpenError
    ensures { result ≡ open_error number fault }
{
    match fault {
        LayoutFault::BadMeta { path, text } => PoolOpenError::BadMeta { path, text },
        LayoutFault::Failed => PoolOpenError::Failed(number),
        LayoutFault::NoMemory => PoolOpenError::NoMemory,
    }
}

// Puts the parts of the shards before others, in their order. Takes no memory.
fn give_back<S: Store + Drop>(shards: Vec<DigestShard<S>>, parts: &mut Vec<S>)
    requires { vec_len shards + vec_len parts.old ≤ vec_capacity parts.old }
    ensures { parts.new.items ≡ each (λ s. s.part) shards.items ++ parts.old.items }
{
    let mut shards = shards;
    while let Some(shard) = shards.pop() {
        put_first(parts, shard.close());
    }
}
