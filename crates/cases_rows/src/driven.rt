//! A row that is driven by hand.
ghost use Rattle.std.specs.Prelude.{◌≡◌, IsTrue};
ghost use Rattle.zot_repo.specs.RowGoing.{IsOnOwn, IsOwn};
ghost use Rattle.zot_model.specs.declared.row.RowCall.TheVariants.{Ask};
ghost use Rattle.zot_siphash.specs.Owners.{AreMembers};

use crate::place::{KEY, MEMBERS};
use crate::stepped::Stepped;
use std::alloc::Global;
use zot_contents::PoolReply;
use zot_model::{Request, RowCall};
use zot_noting::NotingStore;
use zot_repo::{RowConfig, RowCore, RowNext, UnopenedRow};
use zot_siphash::row_of;

/// A row without a pool, with its number and its configuration.
#[derive(Drop)]
pub struct Driven {
    core: RowCore<NotingStore>,
    number: u32,
    config: RowConfig,
    ghost members: { AreMembers config.members },
    ghost row: { core.row ≡ number },
    ghost same: { core.config ≡ config },
}

impl Driven {
    /// Opens the row of a number over a part, where nothing is held for it.
    pub fn open(
        alloc: Global,
        number: u32,
        part: NotingStore,
        moment: u64,
    ) -> Result<Driven, UnopenedRow<NotingStore>> {
        let config = RowConfig {
            members: MEMBERS,
            key: KEY,
        };
        match RowCore::open(alloc, number, config, part, Vec::new(alloc), moment) {
            Ok(core) => Ok(Driven {
                core,
                number,
                config,
            }),
            Err(unopened) => Err(unopened),
        }
    }

    /// Begins a call, unless it is on a repository of another row or another call waits.
    pub fn start(&mut self, alloc: Global, call: &RowCall, moment: u64) -> Option<RowNext> {
        if self.core.pending() == 0 && is_own(&self.config, self.number, call.request()) {
            Some(self.core.start(alloc, call, moment))
        } else {
            None
        }
    }

    /// Goes on with the call that waits, if there is one.
    pub fn resume(&mut self, alloc: Global, answered: PoolReply) -> Option<RowNext> {
        if self.core.pending() == 0 {
            None
        } else {
            Some(self.core.resume(alloc, answered))
        }
    }

    /// How often the pool is asked from here on, at most.
    pub fn pending(&self) -> u64 {
        self.core.pending()
    }

    /// The row with a pool, unless a call waits.
    pub fn into_stepped(self) -> Option<Stepped> {
        let Driven {
            core,
            number,
            config,
        } = self;
        if core.pending() == 0 {
            Some(Stepped::of(core, number, config))
        } else {
            None
        }
    }

    /// Gives the part back.
    pub fn close(self) -> NotingStore {
        self.core.close()
    }
}

/// Whether a request is on a repository of the row with this number.
pub fn is_own(config: &RowConfig, number: u32, request: &Request) -> bool
    requires { AreMembers config.now.members }
    ensures { IsTrue result → IsOnOwn (IsOwn config.now number) (Ask request.now) }
{
    match &request.name {
        Some(name) => row_of(&config.key, name.as_slice(), config.members) == number,
        None => false,
    }
}
