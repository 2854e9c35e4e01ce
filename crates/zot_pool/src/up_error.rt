//! What a call of an upstream answers.
use std::alloc::AllocError;
use thiserror::Error;

/// Why a call of an upstream has no result.
#[derive(Clone, Copy, Debug, Error)]
pub enum UpError {
    /// The upstream failed, and its count of faults rose.
    #[error("the upstream failed")]
    Failed,
    /// Memory ran out.
    #[error("out of memory")]
    NoMemory,
}

impl From<AllocError> for UpError {
    ghost use Rattle.std.specs.Prelude.{◌≡◌};
    ghost use Rattle.zot_pool.specs.declared.up_error.UpError.TheVariants.{NoMemory};

    ghost from_gives = { λ _ e. e ≡ NoMemory };

    fn from(_: AllocError) -> UpError {
        UpError::NoMemory
    }
}
