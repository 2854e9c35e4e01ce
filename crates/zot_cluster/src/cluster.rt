//! A cluster over its storage.
ghost use Rattle.std.proofs.Props.{props};
ghost use Rattle.zot_cluster.specs.Configured.{IsConfigured};

use zot_config::Config;
use zot_outside::Store;
use zot_rows::Rows;

/// A cluster over its parts of the store: its configuration, and the rows of all its members over one pool.
#[derive(Drop)]
pub struct Cluster<S: Store> {
    pub(crate) config: Config,
    pub(crate) rows: Rows<S>,
    ghost same: { IsConfigured config rows.config } by { Prim.hlevel props },
}
