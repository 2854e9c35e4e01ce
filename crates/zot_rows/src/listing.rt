//! What the repositories of each row hold, listed from the pool.
ghost use Rattle.std.specs.Prelude.{◌≡◌, ◌++◌, ◌∷◌, ℕ, List, [], IfErr, IfOk, IfSome, OnOk, length};
ghost use Rattle.std.specs.List.{All};
ghost use Rattle.zot_contents.specs.declared.holding.Holding.{Holding as AHolding};
ghost use Rattle.zot_names.specs.Name.{IsName};
ghost use Rattle.zot_pool.specs.Pools.{AreDeduped, AreTightPool, faults_of, holds, objects_of};
ghost use Rattle.zot_siphash.specs.Owners.{AreMembers};
ghost use Rattle.zot_rows.specs.Listing.{EachApart, EachHeld, EachOwn, HasListCause, by_row, lists_of, list_error, rows_of};

use crate::rows_open_error::RowsOpenError;
use std::alloc::{AllocError, Global};
use zot_contents::{Holding, SHARDS};
use zot_outside::Store;
use zot_pool::{Pool, PoolError};
use zot_siphash::row_of;

/// What the repositories of each row hold, row by row, from the shards of the pool, each of which is asked once. `ShardFault` comes only where a call on the part of that shard failed, and `NoMemory` where memory ran out. Every part keeps its objects.
pub fn held_by_rows<S: Store>(
    alloc: Global,
    key: &[u8; 16],
    members: u32,
    pool: &mut Pool<S>,
) -> Result<Vec<Vec<Holding>>, RowsOpenError>
    requires { AreMembers members }
    ensures many { IfOk result (λ lists. length lists.items ≡ rows_of members) }
    ensures own { IfOk result (λ lists. EachOwn key.now members (lists_of lists.items)) }
    ensures apart { IfOk result (λ lists. EachApart (lists_of lists.items)) }
    ensures held { IfOk result (λ lists. IfSome (holds (objects_of pool.old.shards.items)) (λ held. EachHeld key.now members held (lists_of lists.items))) }
    ensures kept { objects_of pool.new.shards.items ≡ objects_of pool.old.shards.items }
    ensures quiet { OnOk result (faults_of pool.new.shards.items ≡ faults_of pool.old.shards.items) }
    ensures cause { IfErr result (HasListCause (faults_of pool.old.shards.items) (faults_of pool.new.shards.items)) }
    ensures tight { AreTightPool pool.old.shards.items → AreTightPool pool.new.shards.items }
    ensures dedupe { AreDeduped pool.old.shards.items → AreDeduped pool.new.shards.items }
{
    let mut lists = empty_lists(alloc, members)?;
    for number in 0..SHARDS {
        match pool.holdings(alloc, number) {
            Ok(holdings) => put_by_row(key, members, &mut lists, holdings)?,
            Err(error) => return Err(refused(error, number)),
        }
    }
    Ok(lists)
}

// A list for each row, without a holding.
fn empty_lists(alloc: Global, members: u32) -> Result<Vec<Vec<Holding>>, AllocError>
    requires { AreMembers members }
    ensures { IfOk result (λ lists. (key : List ℕ) → lists_of lists.items ≡ by_row key members []) }
{
    let mut lists = Vec::new(alloc);
    for _ in 0..members * 8 {
        lists.push(Vec::new(alloc))?;
    }
    Ok(lists)
}

// Puts each holding behind those of its row. A holding's name is one.
fn put_by_row(
    key: &[u8; 16],
    members: u32,
    lists: &mut Vec<Vec<Holding>>,
    holdings: Vec<Holding>,
) -> Result<(), AllocError>
    requires members { AreMembers members }
    requires many { length lists.old.items ≡ rows_of members }
    ensures named { OnOk result (All (λ h. IsName h.name) holdings.items) }
    ensures put { OnOk result ((before : List AHolding) → lists_of lists.old.items ≡ by_row key.now members before → lists_of lists.new.items ≡ by_row key.now members (before ++ holdings.items)) }
{
    for holding in holdings {
        let row = row_of(key, holding.name.as_slice(), members);
        lists[row as usize].push(holding)?;
    }
    Ok(())
}

// The error for what the shard with this number answers.
fn refused(error: PoolError, number: u32) -> RowsOpenError
    ensures { result ≡ list_error number error }
{
    match error {
        PoolError::Failed => RowsOpenError::ShardFault(number),
        PoolError::NoMemory => RowsOpenError::NoMemory,
    }
}
