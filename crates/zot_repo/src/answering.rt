//! The calls on a row that has a pool.
ghost use Rattle.std.specs.Prelude.{◌≡◌};
ghost use Rattle.zot_model.specs.declared.row.RowCall.TheVariants.{Ask};
ghost use Rattle.zot_model.specs.declared.row.RowReply.TheVariants as answers;
ghost use Rattle.zot_repo.specs.Answering.{AnswersCall};
ghost use Rattle.zot_repo.specs.RowGoing.{IsOnOwn, IsOwn};

use crate::driving::drive;
use crate::shard::RepoShard;
use std::alloc::Global;
use zot_model::{Reply, Request, RowCall, RowReply};
use zot_outside::Store;
use zot_pool::Pool;

impl<S: Store> RepoShard<S> {
    /// Answers a call on a repository of the row, at a moment in seconds, as the plain registry does, or for want of memory, or because the storage failed. Where what the pool holds fits what the row keeps, it does so after the call as well. No other repository's bytes change.
    ///
    /// STORAGE_FAULT comes only where the count of the part's faults or of the pool's rose.
    pub fn step(
        &mut self,
        pool: &mut Pool<S>,
        alloc: Global,
        call: &RowCall,
        moment: u64,
    ) -> RowReply
        requires { IsOnOwn (IsOwn self.old.core.config self.old.core.row) call.now }
        ensures { AnswersCall self.old pool.old.shards.items call.now moment result self.new pool.new.shards.items }
    {
        self.answer(pool, alloc, call.request(), moment)
    }

    /// The reply to a request on a repository of the row, by the contract of `step`. The request is borrowed, so what is stored of it is copied.
    pub fn reply_to(
        &mut self,
        pool: &mut Pool<S>,
        alloc: Global,
        request: &Request,
        moment: u64,
    ) -> Reply
        requires { IsOnOwn (IsOwn self.old.core.config self.old.core.row) (Ask request.now) }
        ensures { AnswersCall self.old pool.old.shards.items (Ask request.now) moment (answers.Reply result) self.new pool.new.shards.items }
    {
        self.answer(pool, alloc, request, moment).into_reply()
    }

    // The answer to a request.
    fn answer(
        &mut self,
        pool: &mut Pool<S>,
        alloc: Global,
        request: &Request,
        moment: u64,
    ) -> RowReply
        requires { IsOnOwn (IsOwn self.old.core.config self.old.core.row) (Ask request.now) }
        ensures { AnswersCall self.old pool.old.shards.items (Ask request.now) moment result self.new pool.new.shards.items }
    {
        drive(
            &mut self.core,
            &mut self.failed,
            pool,
            alloc,
            request,
            moment,
        )
    }
}
