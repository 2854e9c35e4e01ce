//! A row without a pool.
ghost use Rattle.std.specs.Prelude.{◌≡◌, ◌<◌, IfSome, IsSome, None};
ghost use Rattle.std.proofs.Props.{props};
ghost use Rattle.zot_model.specs.declared.row.RowCall.{RowCall as ACall};
ghost use Rattle.zot_repo.specs.StandProps.{row_stands_prop};
ghost use Rattle.zot_repo.specs.RowGoing.{FitsNext, GoesOnRow, HasCauseAfter, HasWaiting, IsForCall, IsOwn, IsWaitingPlaced, KeepsBeside, OnDone, Rests, StandsForTables, name_in, pending_of};
ghost use Rattle.zot_repo.specs.Rows.{NoneFresh};

use crate::repos::Repos;
use crate::row_config::RowConfig;
use crate::row_next::RowNext;
use crate::turned::go_on;
use crate::waiting::Waiting;
use std::alloc::Global;
use zot_contents::PoolReply;
use zot_outside::Store;

/// A row over its part of the store: its repositories without the bytes of their blobs, which a pool of digests holds. A call on it is answered at once, or asks the pool one thing and waits for the answer.
///
/// Where the part tells its objects, they stand for the repositories at the moment of the opening. A fresh repository is kept only while a call on it waits.
#[derive(Drop)]
pub struct RowCore<S: Store> {
    pub(crate) row: u32,
    pub(crate) config: RowConfig,
    pub(crate) opened: u64,
    pub(crate) part: S,
    pub(crate) repos: Repos,
    pub(crate) waiting: Option<Waiting>,
    ghost stands: { StandsForTables (S.objects part) opened (IsOwn config row) repos } by { row_stands_prop (S.objects part) opened (IsOwn config row) repos },
    ghost filled: { NoneFresh (name_in waiting) repos } by { Prim.hlevel props },
    ghost kept: { HasWaiting waiting repos } by { Prim.hlevel props },
    ghost placed: { IsWaitingPlaced config row waiting } by { Prim.hlevel props },
}

impl<S: Store> RowCore<S> {
    /// Goes on with the call that waits, after the pool's answer to what it asked: it is answered, or it asks the pool again, each time one less of what `pending` says.
    ///
    /// STORAGE_FAULT comes only where the part failed in this turn, or the pool answered that a shard did. An answer that no pool gives to what was asked is taken as want of memory.
    pub fn resume(&mut self, alloc: Global, answered: PoolReply) -> RowNext
        requires { IsSome self.old.waiting }
        ensures answer { GoesOnRow (IsOwn self.old.config self.old.row) self.old.waiting answered self.old.repos (S.faults self.old.part) result self.new.waiting self.new.repos (S.faults self.new.part) }
        ensures idle { IfSome self.old.waiting (λ was. Rests result was.name was.moment self.new.waiting) }
        ensures faults { HasCauseAfter answered result (S.faults self.old.part) (S.faults self.new.part) }
        ensures fits { IfSome self.old.waiting (λ was. (call : ACall) → IsForCall call was → FitsNext call result self.new.waiting) }
        ensures falls { pending_of self.new.waiting < pending_of self.old.waiting }
        ensures beside { IfSome self.old.waiting (λ was. KeepsBeside (S.objects self.old.part) was.name (S.objects self.new.part)) }
        ensures names { OnDone result (NoneFresh None self.new.repos) }
        ensures row { self.new.row ≡ self.old.row }
        ensures config { self.new.config ≡ self.old.config }
        ensures opened { self.new.opened ≡ self.old.opened }
    {
        let Some(was) = self.waiting.take() else {
            unreachable!()
        };
        // The bytes say that it is a name.
        let _ = was.name.as_slice();
        go_on(
            &mut self.part,
            &mut self.repos,
            &mut self.waiting,
            alloc,
            was,
            answered,
        )
    }

    /// How often the pool is asked from here on, at most, for the call that waits. Takes no memory.
    pub fn pending(&self) -> u64
        ensures { result ≡ pending_of self.now.waiting }
    {
        match &self.waiting {
            Some(waiting) => waiting.stage.pending(),
            None => 0,
        }
    }

    /// Gives the part back. Takes no memory.
    pub fn close(self) -> S
        ensures { result ≡ self.part }
    {
        self.part
    }
}
