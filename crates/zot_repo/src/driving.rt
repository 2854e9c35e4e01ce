//! A call on a row, from its beginning to its answer.
ghost use Rattle.std.specs.Prelude.{◌≡◌, None};
ghost use Rattle.zot_repo.specs.RowGoing.{IsOnOwn, IsOwn};
ghost use Rattle.zot_repo.specs.Shards.{Drives, IsIdle};
ghost use Rattle.zot_model.specs.declared.row.RowCall.TheVariants.{Ask};
ghost use Rattle.zot_repo.specs.declared.row_next.RowNext.TheVariants.{Done};

use crate::asking::ask;
use crate::row_core::RowCore;
use crate::row_next::RowNext;
use std::alloc::Global;
use zot_model::{Request, RowReply};
use zot_outside::Store;
use zot_pool::Pool;

/// Begins a request on a row, and asks the pool as often as it takes until the call is answered. Answers that a shard failed are counted.
pub fn drive<S: Store>(
    core: &mut RowCore<S>,
    failed: &mut u64,
    pool: &mut Pool<S>,
    alloc: Global,
    request: &Request,
    moment: u64,
) -> RowReply
    requires own { IsOnOwn (IsOwn core.old.config core.old.row) (Ask request.now) }
    requires idle { core.old.waiting ≡ None }
    ensures drives { Drives core.old failed.old pool.old.shards.items (Ask request.now) moment (Done result) core.new failed.new pool.new.shards.items }
    ensures idle { IsIdle core.new.waiting }
{
    let Some(name) = &request.name else {
        unreachable!()
    };
    let mut next = core.ask(alloc, request, moment);
    'turns: loop {
        match next {
            RowNext::Done(answer) => return answer,
            RowNext::Pool(asked) => {
                let answered = ask(failed, pool, alloc, name, asked);
                next = core.resume(alloc, answered);
            }
        }
    }
}
