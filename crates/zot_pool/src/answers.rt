//! Answers of a shard as answers of the pool.
ghost use Rattle.std.specs.Prelude.{◌≡◌};
ghost use Rattle.zot_outside.specs.Faults.{OnMissing};
ghost use Rattle.zot_pool.specs.Answers.{pooled};

use crate::pool_error::PoolError;
use zot_outside::{StoreError, StoreResult};

/// The answer of the pool for that of a shard, which never answers that an object is missing.
pub fn pooled<T>(answer: StoreResult<T>) -> Result<T, PoolError>
    requires { OnMissing answer ⊥ }
    ensures { result ≡ pooled answer }
{
    match answer {
        Ok(value) => Ok(value),
        Err(StoreError::Failed) => Err(PoolError::Failed),
        Err(StoreError::NoMemory) => Err(PoolError::NoMemory),
        Err(StoreError::Missing) => unreachable!(),
    }
}
