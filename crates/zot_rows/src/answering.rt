//! Requests answered by the rows of a cluster.
ghost use Rattle.std.specs.Prelude.{◌≡◌, IfSome};
ghost use Rattle.zot_model.specs.Fits.{IsFitting};
ghost use Rattle.zot_model.specs.History.{IsNamed};
ghost use Rattle.zot_model.specs.declared.row.RowCall.TheVariants.{Ask};
ghost use Rattle.zot_model.specs.declared.row.RowReply.TheVariants as answers;
ghost use Rattle.zot_pool.specs.Pools.{AreDeduped, AreTightPool, BothHold, ChangesOnly, holds, objects_of};
ghost use Rattle.zot_rows.specs.Histories.{BothTell, EntersRow};
ghost use Rattle.zot_rows.specs.Rows.{AreAgreedIn, HasRowFault, HaveCause, failed_in, opened_in, part_faults, pool_faults, row_for, states_of};
ghost use Rattle.zot_rows.specs.Seats.{EntersByOwners};

use crate::rows::Rows;
use std::alloc::Global;
use zot_model::{Reply, Request};
use zot_outside::Store;
use zot_repo::RowConfig;
use zot_siphash::{owners_and_rows, row_of};

impl<S: Store> Rows<S> {
    /// The configuration of the rows.
    pub fn config(&self) -> RowConfig
        ensures { result ≡ self.now.config }
    {
        self.config
    }

    /// The reply to a request on a repository, at a moment in seconds, by the row of its name: as the plain registry answers, or that memory ran out or the storage failed. The request is borrowed, so what is stored of it is copied. Every other row stays as it is. What it does in the pool are entries of the seat of that row. Where what the pool holds fits what the rows keep, it does so afterwards.
    ///
    /// STORAGE_FAULT comes only where a part failed: the row's own, or that of the pool which was asked.
    pub fn reply_to(&mut self, alloc: Global, request: &Request, moment: u64) -> Reply
        requires { IsNamed (Ask request.now) }
        ensures answers { AreAgreedIn self.old → BothTell (states_of self.old) (states_of self.new) (λ old new. IfSome request.now.name (λ name. EntersRow (row_for self.old name) old (Ask request.now) moment (answers.Reply result) new)) }
        ensures agreed { AreAgreedIn self.old → AreAgreedIn self.new }
        ensures cause { HaveCause (pool_faults self.old) (pool_faults self.new) (failed_in self.old) (failed_in self.new) }
        ensures seats { BothHold (holds (objects_of self.old.pool.shards.items)) (holds (objects_of self.new.pool.shards.items)) (EntersByOwners self.old.config) }
        ensures fault { IfSome request.now.name (λ name. HasRowFault (row_for self.old name) result (part_faults self.old) (part_faults self.new) (pool_faults self.old) (pool_faults self.new)) }
        ensures beside { IfSome request.now.name (λ name. ChangesOnly (row_for self.old name) self.old.rows.items self.new.rows.items) }
        ensures fits { IsFitting (Ask request.now) (answers.Reply result) }
        ensures config { self.new.config ≡ self.old.config }
        ensures opened { opened_in self.new ≡ opened_in self.old }
        ensures tight { AreDeduped self.old.pool.shards.items → AreTightPool self.old.pool.shards.items → AreTightPool self.new.pool.shards.items }
        ensures dedupe { AreDeduped self.old.pool.shards.items → AreDeduped self.new.pool.shards.items }
    {
        let Some(name) = &request.name else {
            unreachable!()
        };
        // The row is one of those that there are.
        owners_and_rows();
        let number = row_of(&self.config.key, name.as_slice(), self.config.members);
        let row = &mut self.rows[number as usize];
        row.reply_to(&mut self.pool, alloc, request, moment)
    }
}
