//! What a call of a store answers.
use std::alloc::AllocError;
use thiserror::Error;

/// Why a call of a store has no result.
#[derive(Clone, Copy, Debug, Error)]
pub enum StoreError {
    /// The path has no object.
    #[error("the path has no object")]
    Missing,
    /// The store failed, and its count of faults rose.
    #[error("the store failed")]
    Failed,
    /// Memory ran out.
    #[error("out of memory")]
    NoMemory,
}

/// What a call of a store answers.
pub type StoreResult<T> = Result<T, StoreError>;

impl From<AllocError> for StoreError {
    ghost use Rattle.std.specs.Prelude.{◌≡◌};
    ghost use Rattle.zot_outside.specs.declared.stores.store_error.StoreError.TheVariants.{NoMemory};

    ghost from_gives = { λ _ e. e ≡ NoMemory };

    fn from(_: AllocError) -> StoreError {
        StoreError::NoMemory
    }
}
