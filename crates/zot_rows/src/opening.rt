//! Opening the rows of a cluster over their parts.
ghost use Rattle.std.specs.Prelude.{◌≡◌, ◌≤◌, IfErr, IfOk, IfSome, OnErr, OnOk, [], length, map as each, true};
ghost use Rattle.std.specs.List.{All};
ghost use Rattle.std.specs.Vec.{vec_capacity};
ghost use Rattle.zot_contents.specs.Shards.{shards as shard_count};
ghost use Rattle.zot_pool.specs.Opening.{AllHaveMeaning, AreTightTrees};
ghost use Rattle.zot_pool.specs.Pools.{AreDeduped, AreTightPool, faults_of, holds, objects_of};
ghost use Rattle.zot_siphash.specs.Owners.{AreMembers};
ghost use Rattle.zot_rows.specs.Listing.{EachOwn, lists_of, rows_of};
ghost use Rattle.zot_rows.specs.Opening.{AllAreWhole, AreAllOpened, AreOpenedOver, AreOpenedRows, HasRowsCause, IsFirstBadRow, OnBadRow, RefusesObject, StopsAtRow, pool_error, row_error};
ghost use Rattle.zot_rows.specs.Rows.{AreAgreedIn, AreOpenedAt, failed_in, states_beside};

use crate::closing::give_back;
use crate::listing::held_by_rows;
use crate::rows::Rows;
use crate::rows_open_error::RowsOpenError;
use crate::unopened_rows::UnopenedRows;
use std::alloc::Global;
use zot_contents::Holding;
use zot_layout::LayoutError;
use zot_outside::Store;
use zot_pool::{Pool, PoolOpenError, put_first, put_last};
use zot_repo::{RepoShard, RowConfig};

impl<S: Store + Drop> Rows<S> {
    /// Opens the rows over their parts, of which there are eight a member, and the pool over those of its shards, of which there are sixteen, each in their order, at a moment in seconds. A row's repositories are what its part holds of them, each with the blobs that the pool holds for it, as if these arrived at the moment. No object is changed. The room in which `close` gives the rows' parts back is that in which they were given.
    ///
    /// A refusal gives all parts back. `BadIndex` and `BadMeta` come exactly where an object has no meaning, `RowFault` and `ShardFault` only where the part that is named failed, and `NoMemory` where memory ran out.
    pub fn open(
        alloc: Global,
        config: RowConfig,
        parts: Vec<S>,
        shards: Vec<S>,
        dedupe: bool,
        moment: u64,
    ) -> Result<Rows<S>, UnopenedRows<S>>
        requires members { AreMembers config.members }
        requires parts { length parts.items ≡ rows_of config.members }
        requires shards { length shards.items ≡ shard_count }
        ensures config { IfOk result (λ rows. rows.config ≡ config) }
        ensures agreed { IfOk result AreAgreedIn }
        ensures failed { IfOk result (λ rows. All (λ count. count ≡ 0) (failed_in rows)) }
        ensures opened { IfOk result (AreOpenedAt moment) }
        ensures state { IfOk result (λ rows. IfSome (holds (each S.objects shards.items)) (λ held. AreOpenedRows config moment (each S.objects parts.items) held (states_beside held rows.rows.items))) }
        ensures objects { IfOk result (λ rows. each (λ r. S.objects r.core.part) rows.rows.items ≡ each S.objects parts.items) }
        ensures pooled { IfOk result (λ rows. objects_of rows.pool.shards.items ≡ each S.objects shards.items) }
        ensures quiet { IfOk result (λ rows. each (λ r. S.faults r.core.part) rows.rows.items ≡ each S.faults parts.items) }
        ensures still { IfOk result (λ rows. faults_of rows.pool.shards.items ≡ each S.faults shards.items) }
        ensures whole { OnOk result (AllAreWhole config moment (each S.objects parts.items)) }
        ensures meaning { OnOk result (AllHaveMeaning (each S.objects shards.items)) }
        ensures tight { IfOk result (λ rows. AreTightTrees (each S.objects shards.items) → AreTightPool rows.pool.shards.items) }
        ensures dedupe { IfOk result (λ rows. dedupe ≡ true → AreDeduped rows.pool.shards.items) }
        ensures back { IfErr result (λ unopened. each S.objects unopened.parts.items ≡ each S.objects parts.items) }
        ensures shards { IfErr result (λ unopened. each S.objects unopened.shards.items ≡ each S.objects shards.items) }
        ensures cause { IfErr result (λ unopened. HasRowsCause config.members (each S.faults parts.items) (each S.faults unopened.parts.items) (each S.faults shards.items) (each S.faults unopened.shards.items) unopened.error) }
        ensures bad { IfErr result (λ unopened. RefusesObject config moment (each S.objects parts.items) (each S.objects shards.items) unopened.error) }
    {
        let mut parts = parts;
        match Pool::open(shards, alloc, dedupe) {
            Ok(pool) => {
                let mut pool = pool;
                match open_rows(alloc, &config, &mut parts, &mut pool, moment) {
                    Ok(rows) => Ok(Rows {
                        config,
                        rows,
                        pool,
                        room: parts,
                    }),
                    Err(error) => Err(UnopenedRows {
                        parts,
                        shards: pool.close(),
                        error,
                    }),
                }
            }
            Err(unopened) => Err(UnopenedRows {
                parts,
                shards: unopened.parts,
                error: unpooled(unopened.error),
            }),
        }
    }
}

// Opens the rows over the parts, with what the pool holds, and leaves none; or leaves all parts.
fn open_rows<S: Store + Drop>(
    alloc: Global,
    config: &RowConfig,
    parts: &mut Vec<S>,
    pool: &mut Pool<S>,
    moment: u64,
) -> Result<Vec<RepoShard<S>>, RowsOpenError>
    requires members { AreMembers config.now.members }
    requires many { length parts.old.items ≡ rows_of config.now.members }
    ensures opened { IfOk result (λ rows. AreAllOpened config.now moment (holds (objects_of pool.old.shards.items)) parts.old.items rows.items) }
    ensures left { OnOk result (parts.new.items ≡ []) }
    ensures capacity { OnOk result (vec_capacity parts.old ≤ vec_capacity parts.new) }
    ensures kept { objects_of pool.new.shards.items ≡ objects_of pool.old.shards.items }
    ensures quiet { OnOk result (faults_of pool.new.shards.items ≡ faults_of pool.old.shards.items) }
    ensures tight { AreTightPool pool.old.shards.items → AreTightPool pool.new.shards.items }
    ensures dedupe { AreDeduped pool.old.shards.items → AreDeduped pool.new.shards.items }
    ensures back { OnErr result (each S.objects parts.new.items ≡ each S.objects parts.old.items) }
    ensures cause { IfErr result (HasRowsCause config.now.members (each S.faults parts.old.items) (each S.faults parts.new.items) (faults_of pool.old.shards.items) (faults_of pool.new.shards.items)) }
    ensures bad { IfErr result (λ error. OnBadRow error (IsFirstBadRow config.now moment (each S.objects parts.old.items))) }
{
    let lists = held_by_rows(alloc, &config.key, config.members, pool)?;
    let mut rows = Vec::with_capacity(alloc, config.members as usize * 8)?;
    match open_each(alloc, config, parts, lists, moment, &mut rows) {
        Ok(()) => Ok(rows),
        Err(error) => {
            give_back(rows, parts);
            Err(error)
        }
    }
}

// Opens the rows over the parts one after another, each with its list, and leaves those parts over which there is none.
fn open_each<S: Store + Drop>(
    alloc: Global,
    config: &RowConfig,
    parts: &mut Vec<S>,
    lists: Vec<Vec<Holding>>,
    moment: u64,
    rows: &mut Vec<RepoShard<S>>,
) -> Result<(), RowsOpenError>
    requires members { AreMembers config.now.members }
    requires many { length parts.old.items ≡ rows_of config.now.members }
    requires lists { length lists.items ≡ rows_of config.now.members }
    requires own { EachOwn config.now.key config.now.members (lists_of lists.items) }
    requires first { rows.old.items ≡ [] }
    requires room { rows_of config.now.members ≤ vec_capacity rows.old }
    ensures ok { OnOk result (AreOpenedOver config.now moment (lists_of lists.items) 0 parts.old.items rows.new.items) }
    ensures left { OnOk result (parts.new.items ≡ []) }
    ensures err { IfErr result (StopsAtRow config.now moment (lists_of lists.items) parts.old.items rows.new.items parts.new.items) }
    ensures capacity { vec_capacity parts.old ≤ vec_capacity parts.new }
{
    let mut lists = lists;
    for row in 0..config.members * 8 {
        let part = parts.remove(0);
        let held = lists.remove(0);
        match RepoShard::open(alloc, row, *config, part, held, moment) {
            Ok(opened) => put_last(rows, opened),
            Err(unopened) => {
                put_first(parts, unopened.part);
                return Err(refused(unopened.error, row));
            }
        }
    }
    Ok(())
}

// The error for what opening the pool answers.
fn unpooled(error: PoolOpenError) -> RowsOpenError
    ensures { result ≡ pool_error error }
{
    match error {
        PoolOpenError::BadMeta { path, text } => RowsOpenError::BadMeta { path, text },
        PoolOpenError::Failed(number) => RowsOpenError::ShardFault(number),
        PoolOpenError::NoMemory => RowsOpenError::NoMemory,
    }
}

// The error for what opening the row with this number answers.
fn refused(error: LayoutError, row: u32) -> RowsOpenError
    ensures { result ≡ row_error row error }
{
    match error {
        LayoutError::BadIndex { path, text } => RowsOpenError::BadIndex { path, text },
        LayoutError::BadMeta { path, text } => RowsOpenError::BadMeta { path, text },
        LayoutError::Failed => RowsOpenError::RowFault(row),
        LayoutError::NoMemory => RowsOpenError::NoMemory,
    }
}
