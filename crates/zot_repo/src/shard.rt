//! A row with the pool that it asks.
ghost use Rattle.std.specs.Prelude.{◌≡◌, None};
ghost use Rattle.std.proofs.Props.{props};
ghost use Rattle.zot_repo.specs.Shards.{IsIdle};

use crate::row_core::RowCore;
use zot_outside::Store;

/// A row over its part of the store, whose calls a pool helps to answer. Between calls none waits.
///
/// The row's storage faults are its part's count of faults and the answers of pools that a shard failed.
#[derive(Drop)]
pub struct RepoShard<S: Store> {
    pub(crate) core: RowCore<S>,
    pub(crate) failed: u64,
    ghost idle: { IsIdle core.waiting } by { Prim.hlevel props },
}

impl<S: Store> RepoShard<S> {
    /// A row to which no pool has answered that a shard failed. Takes no memory.
    pub fn new(core: RowCore<S>) -> Self
        requires { core.waiting ≡ None }
        ensures core { result.core ≡ core }
        ensures failed { result.failed ≡ 0 }
    {
        RepoShard { core, failed: 0 }
    }

    /// Gives the part back. Takes no memory.
    pub fn close(self) -> S
        ensures { result ≡ self.core.part }
    {
        self.core.close()
    }
}
