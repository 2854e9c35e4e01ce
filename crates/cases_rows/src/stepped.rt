//! A row whose calls a pool helps to answer.
ghost use Rattle.std.specs.Prelude.{◌≡◌, None};
ghost use Rattle.zot_siphash.specs.Owners.{AreMembers};

use crate::driven::is_own;
use crate::place::{KEY, MEMBERS};
use std::alloc::Global;
use zot_model::{Reply, Request, RowCall, RowReply};
use zot_noting::NotingStore;
use zot_pool::Pool;
use zot_repo::{RepoShard, RowConfig, RowCore, UnopenedRow};

/// A row, with its number and its configuration.
#[derive(Drop)]
pub struct Stepped {
    shard: RepoShard<NotingStore>,
    number: u32,
    config: RowConfig,
    ghost members: { AreMembers config.members },
    ghost row: { shard.core.row ≡ number },
    ghost same: { shard.core.config ≡ config },
}

impl Stepped {
    /// Opens the row of a number over a part, where nothing is held for it.
    pub fn open(
        alloc: Global,
        number: u32,
        part: NotingStore,
        moment: u64,
    ) -> Result<Stepped, UnopenedRow<NotingStore>> {
        let config = RowConfig {
            members: MEMBERS,
            key: KEY,
        };
        match RepoShard::open(alloc, number, config, part, Vec::new(alloc), moment) {
            Ok(shard) => Ok(Stepped {
                shard,
                number,
                config,
            }),
            Err(unopened) => Err(unopened),
        }
    }

    /// The row over a core for which no call waits, with its number and its configuration.
    pub fn of(core: RowCore<NotingStore>, number: u32, config: RowConfig) -> Stepped
        requires idle { core.waiting ≡ None }
        requires members { AreMembers config.members }
        requires row { core.row ≡ number }
        requires same { core.config ≡ config }
    {
        Stepped {
            shard: RepoShard::new(core),
            number,
            config,
        }
    }

    /// The answer to a call, unless it is on a repository of another row.
    pub fn step(
        &mut self,
        pool: &mut Pool<NotingStore>,
        alloc: Global,
        call: &RowCall,
        moment: u64,
    ) -> Option<RowReply> {
        if is_own(&self.config, self.number, call.request()) {
            Some(self.shard.step(pool, alloc, call, moment))
        } else {
            None
        }
    }

    /// The reply to a request, unless it is on a repository of another row.
    pub fn reply_to(
        &mut self,
        pool: &mut Pool<NotingStore>,
        alloc: Global,
        request: &Request,
        moment: u64,
    ) -> Option<Reply> {
        if is_own(&self.config, self.number, request) {
            Some(self.shard.reply_to(pool, alloc, request, moment))
        } else {
            None
        }
    }

    /// Gives the part back.
    pub fn close(self) -> NotingStore {
        self.shard.close()
    }
}
