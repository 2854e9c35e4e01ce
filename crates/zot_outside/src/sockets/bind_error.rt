//! Why a listener isn't made.
use std::alloc::AllocError;
use thiserror::Error;

/// Why the members' addresses weren't bound.
#[derive(Clone, Copy, Debug, PartialEq, Eq, Error)]
pub enum BindError {
    /// A text isn't an address, or the address couldn't be bound.
    #[error("an address couldn't be bound")]
    Failed,
    /// Memory ran out.
    #[error("out of memory")]
    NoMemory,
}

impl From<AllocError> for BindError {
    ghost use Rattle.std.specs.Prelude.{◌≡◌};
    ghost use Rattle.zot_outside.specs.declared.sockets.bind_error.BindError.TheVariants.{NoMemory};

    ghost from_gives = { λ _ e. e ≡ NoMemory };

    fn from(_: AllocError) -> BindError {
        BindError::NoMemory
    }
}
