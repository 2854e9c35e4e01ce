//! A configuration.
ghost use Rattle.std.specs.Prelude.{◌≡◌, length, ◌≤◌};
ghost use Rattle.zot_config.specs.Settings.{IsCounted};
ghost use Rattle.zot_config.specs.Table.{settings};

use crate::address::Address;
use crate::cluster::Cluster;
use crate::storage::Storage;
use std::marker::Model;

/// The configuration of a cluster. Contracts see its settings; it has 1 to 8 members.
#[derive(Drop)]
pub struct Config {
    storage: Storage,
    cluster: Cluster,
    rounds: u64,
}

impl Model for Config {
    ghost use Rattle.zot_config.specs.Settings.{Settings, IsCounted};

    ghost Value = { Settings };

    ghost use Rattle.zot_config.specs.Table.{settings};

    ghost view = { λ c. settings c.storage c.cluster c.rounds };

    ghost invariant = { λ c. IsCounted c.cluster.members };
}

impl Config {
    // The configuration of these parts.
    pub(crate) fn new(storage: Storage, cluster: Cluster, rounds: u64) -> Self
        requires { IsCounted cluster.members }
        ensures { result ≡ settings storage cluster rounds }
    {
        Config {
            storage,
            cluster,
            rounds,
        }
    }

    /// The addresses of the members, in their order.
    pub fn members(&self) -> &[Address]
        ensures value { result.now ≡ self.now.members }
        ensures counted { IsCounted self.now.members }
    {
        self.cluster.members.as_slice()
    }

    /// How many members there are: 1 to 8.
    pub fn member_count(&self) -> u32
        ensures value { result ≡ length self.now.members }
        ensures counted { (1 ≤ result) × (result ≤ 8) }
    {
        self.cluster.members.len() as u32
    }

    /// The key of the hash that gives a repository its owner.
    pub fn key(&self) -> &[u8; 16]
        ensures { result.now ≡ self.now.key }
    {
        &self.cluster.key
    }

    /// The root of the storage.
    pub fn root(&self) -> &str
        ensures { result.now ≡ self.now.root }
    {
        self.storage.root.as_str()
    }

    /// Whether equal blobs are stored once.
    pub fn dedupe(&self) -> bool
        ensures { result ≡ self.now.dedupe }
    {
        self.storage.dedupe
    }

    /// How many seconds a blob, a manifest or an upload is kept at least before a collection removes it.
    pub fn delay(&self) -> u64
        ensures { result ≡ self.now.delay }
    {
        self.storage.delay
    }

    /// How many seconds pass from one round of mirroring and of collection to the next; 0 where there are none.
    pub fn rounds(&self) -> u64
        ensures { result ≡ self.now.rounds }
    {
        self.rounds
    }
}
