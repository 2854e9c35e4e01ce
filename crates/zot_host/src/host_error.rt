//! What a call of a host answers.
use std::alloc::AllocError;
use thiserror::Error;

/// Why a call of a host has no result.
#[derive(Clone, Copy, Debug, PartialEq, Eq, Error)]
pub enum HostError {
    /// The file isn't there.
    #[error("the file isn't there")]
    Missing,
    /// The host failed, and its count of faults rose.
    #[error("the host failed")]
    Failed,
    /// Memory ran out.
    #[error("out of memory")]
    NoMemory,
}

/// What a call of a host answers.
pub type HostResult<T> = Result<T, HostError>;

impl From<AllocError> for HostError {
    ghost use Rattle.std.specs.Prelude.{◌≡◌};
    ghost use Rattle.zot_host.specs.declared.host_error.HostError.TheVariants.{NoMemory};

    ghost from_gives = { λ _ e. e ≡ NoMemory };

    fn from(_: AllocError) -> HostError {
        HostError::NoMemory
    }
}
