//! Why a call of the pool has no result.
use std::alloc::AllocError;
use thiserror::Error;

/// Why a call of the pool has no result.
#[derive(Clone, Copy, Debug, Error)]
pub enum PoolError {
    /// A call on the part of the digest's shard failed, and its count of faults rose.
    #[error("storage failed")]
    Failed,
    /// Memory ran out.
    #[error("out of memory")]
    NoMemory,
}

impl From<AllocError> for PoolError {
    ghost use Rattle.std.specs.Prelude.{◌≡◌};
    ghost use Rattle.zot_pool.specs.declared.pool_error.PoolError.TheVariants.{NoMemory};

    ghost from_gives = { λ _ e. e ≡ NoMemory };

    fn from(_: AllocError) -> PoolError {
        PoolError::NoMemory
    }
}
