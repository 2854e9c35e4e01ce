//! The beginning of a call on a row.
ghost use Rattle.std.specs.Prelude.{◌≡◌, None};
ghost use Rattle.zot_model.specs.declared.row.RowCall.TheVariants.{Ask};
ghost use Rattle.zot_repo.specs.RowGoing.{IsOnOwn, IsOwn};
ghost use Rattle.zot_repo.specs.Shards.{BeginsCall};

use crate::row_core::RowCore;
use crate::row_next::RowNext;
use crate::turned::begin;
use std::alloc::Global;
use zot_model::{Request, RowCall};
use zot_outside::Store;

impl<S: Store> RowCore<S> {
    /// Begins a request on a repository of the row, at a moment in seconds, while no other call is in progress: it is answered, or it asks the pool one thing and waits for the answer, which `resume` takes. Of the part it asks its repository's own layout alone.
    ///
    /// STORAGE_FAULT comes only where the part failed. What it and NO_MEMORY may leave is said with `leavings`.
    pub fn ask(&mut self, alloc: Global, request: &Request, moment: u64) -> RowNext
        requires own { IsOnOwn (IsOwn self.old.config self.old.row) (Ask request.now) }
        requires idle { self.old.waiting ≡ None }
        ensures { BeginsCall self.old (Ask request.now) moment result self.new }
    {
        let Some(name) = &request.name else {
            unreachable!()
        };
        begin(
            &mut self.part,
            &mut self.repos,
            &mut self.waiting,
            alloc,
            name,
            request,
            moment,
        )
    }

    /// Begins a call on a repository of the row, by `ask`.
    pub fn start(&mut self, alloc: Global, call: &RowCall, moment: u64) -> RowNext
        requires own { IsOnOwn (IsOwn self.old.config self.old.row) call.now }
        requires idle { self.old.waiting ≡ None }
        ensures { BeginsCall self.old call.now moment result self.new }
    {
        self.ask(alloc, call.request(), moment)
    }
}
