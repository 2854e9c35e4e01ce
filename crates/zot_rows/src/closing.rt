//! Closing the rows of a cluster.
ghost use Rattle.std.specs.Prelude.{◌≡◌, ◌≤◌, ◌+◌, ◌++◌, map as each, vec_len};
ghost use Rattle.std.specs.Vec.{vec_capacity};
ghost use Rattle.zot_pool.specs.Opening.{AreTightTrees};
ghost use Rattle.zot_pool.specs.Pools.{AreTightPool};
ghost use Rattle.zot_rows.specs.Agreed.{AllStand};

use crate::rows::Rows;
use zot_outside::Store;
use zot_pool::put_first;
use zot_repo::RepoShard;

impl<S: Store + Drop> Rows<S> {
    /// Gives the parts back, those of the rows and those of the pool, each in their order. Takes no memory.
    pub fn close(self) -> (Vec<S>, Vec<S>)
        ensures parts { result.0.items ≡ each (λ r. r.core.part) self.rows.items }
        ensures stand { AllStand self.rows.items }
        ensures shards { result.1.items ≡ each (λ s. s.part) self.pool.shards.items }
        ensures tight { AreTightPool self.pool.shards.items → AreTightTrees (each S.objects result.1.items) }
    {
        let mut parts = self.room;
        give_back(self.rows, &mut parts);
        let shards = self.pool.close();
        (parts, shards)
    }
}

/// Puts the parts of the rows before others, in their order. Takes no memory.
pub(crate) fn give_back<S: Store + Drop>(rows: Vec<RepoShard<S>>, parts: &mut Vec<S>)
    requires { vec_len rows + vec_len parts.old ≤ vec_capacity parts.old }
    ensures { parts.new.items ≡ each (λ r. r.core.part) rows.items ++ parts.old.items }
{
    let mut rows = rows;
    while let Some(row) = rows.pop() {
        put_first(parts, row.close());
    }
}
