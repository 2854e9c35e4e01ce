//! How a call is answered that can't go on.
ghost use Rattle.std.specs.Prelude.{◌≡◌};
ghost use Rattle.zot_row.specs.Refusals.{pool_refusal, store_refusal};

use zot_contents::PoolReply;
use zot_model::Reply;
use zot_outside::StoreError;

/// The reply to an error of the part: the storage failed, or memory ran out.
pub fn refused(error: StoreError) -> Reply
    ensures { result ≡ store_refusal error }
{
    match error {
        StoreError::Failed => Reply::storage_fault(),
        StoreError::Missing | StoreError::NoMemory => Reply::no_memory(),
    }
}

/// The reply where the pool didn't give what it was asked for: the storage failed where a shard did, and else memory ran out.
pub fn ungiven(answered: &PoolReply) -> Reply
    ensures { result ≡ pool_refusal answered.now }
{
    match answered {
        PoolReply::Failed => Reply::storage_fault(),
        _ => Reply::no_memory(),
    }
}
