//! The rows of a cluster over one pool.
ghost use Rattle.std.proofs.Props.{props};
ghost use Rattle.zot_rows.specs.Agreed.{AreRows, HasRoom};
ghost use Rattle.zot_siphash.specs.Owners.{AreMembers};

use zot_outside::Store;
use zot_pool::Pool;
use zot_repo::{RepoShard, RowConfig};

/// The rows of a cluster, eight a member, each over its part of the store, and the pool of digests that holds the bytes of their blobs. A repository is in the row of its name.
#[derive(Drop)]
pub struct Rows<S: Store> {
    pub(crate) config: RowConfig,
    pub(crate) rows: Vec<RepoShard<S>>,
    pub(crate) pool: Pool<S>,
    // Where the rows' parts are given back, so that closing takes no memory.
    pub(crate) room: Vec<S>,
    ghost members: { AreMembers config.members },
    ghost numbered: { AreRows config rows.items } by { Prim.hlevel props },
    ghost roomy: { HasRoom config room },
}
