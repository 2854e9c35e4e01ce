//! Opening a cluster over its parts, and closing it.
ghost use Rattle.std.specs.Prelude.{◌≡◌, ℕ, IfErr, IfOk, IfSome, length, map as each};
ghost use Rattle.zot_contents.specs.Shards.{shards as shard_count};
ghost use Rattle.zot_pool.specs.Opening.{AreTightTrees};
ghost use Rattle.zot_pool.specs.Pools.{AreTightPool};
ghost use Rattle.zot_cluster.specs.Configured.{row_config};
ghost use Rattle.zot_cluster.specs.Opening.{IsOpened};
ghost use Rattle.zot_cluster.specs.Parts.{StandForRows};
ghost use Rattle.zot_rows.specs.Listing.{rows_of};
ghost use Rattle.zot_rows.specs.Opening.{HasRowsCause, RefusesObject};
ghost use Rattle.zot_rows.specs.Rows.{AreAgreedIn, AreOpenedAt, states_of};

use crate::cluster::Cluster;
use std::alloc::Global;
use zot_config::Config;
use zot_outside::{Parts, Store};
use zot_repo::RowConfig;
use zot_rows::{Rows, UnopenedRows};

impl<S: Store + Drop> Cluster<S> {
    /// Opens the cluster of a configuration over its parts, at a moment in seconds: eight rows a member, and sixteen shards of digests. Its repositories are what the parts hold of them. No object is changed.
    ///
    /// A refusal gives all parts back. `BadIndex` and `BadMeta` come exactly where an object has no meaning, `RowFault` and `ShardFault` only where the part that is named failed, and `NoMemory` where memory ran out.
    pub fn open(
        alloc: Global,
        config: Config,
        parts: Parts<S>,
        moment: u64,
    ) -> Result<Cluster<S>, UnopenedRows<S>>
        requires rows { length parts.rows.items ≡ rows_of (length config.members) }
        requires shards { length parts.shards.items ≡ shard_count }
        ensures config { IfOk result (λ cluster. cluster.config ≡ config) }
        ensures opened { IfOk result (λ cluster. IsOpened (row_config config) config.dedupe moment parts.rows.items parts.shards.items cluster.rows) }
        ensures back { IfErr result (λ unopened. each S.objects unopened.parts.items ≡ each S.objects parts.rows.items) }
        ensures shards { IfErr result (λ unopened. each S.objects unopened.shards.items ≡ each S.objects parts.shards.items) }
        ensures cause { IfErr result (λ unopened. HasRowsCause (length config.members) (each S.faults parts.rows.items) (each S.faults unopened.parts.items) (each S.faults parts.shards.items) (each S.faults unopened.shards.items) unopened.error) }
        ensures bad { IfErr result (λ unopened. RefusesObject (row_config config) moment (each S.objects parts.rows.items) (each S.objects parts.shards.items) unopened.error) }
    {
        let of_rows = RowConfig {
            members: config.member_count(),
            key: *config.key(),
        };
        let dedupe = config.dedupe();
        let rows = Rows::open(alloc, of_rows, parts.rows, parts.shards, dedupe, moment)?;
        Ok(Cluster { config, rows })
    }

    /// The configuration.
    pub fn config(&self) -> &Config
        ensures { result.now ≡ self.now.config }
    {
        &self.config
    }

    /// Gives the parts back, those of the rows and those of the shards, each in their order. They stand for what the rows are, with the moment of the opening where an index says none. Takes no memory.
    pub fn close(self) -> Parts<S>
        ensures parts { result.rows.items ≡ each (λ r. r.core.part) self.rows.rows.items }
        ensures shards { result.shards.items ≡ each (λ s. s.part) self.rows.pool.shards.items }
        ensures stand { (moment : ℕ) → AreOpenedAt moment self.rows → AreAgreedIn self.rows → IfSome (states_of self.rows) (StandForRows self.rows.config moment (each S.objects result.rows.items) (each S.objects result.shards.items)) }
        ensures tight { AreTightPool self.rows.pool.shards.items → AreTightTrees (each S.objects result.shards.items) }
    {
        let (rows, shards) = self.rows.close();
        Parts { rows, shards }
    }
}
