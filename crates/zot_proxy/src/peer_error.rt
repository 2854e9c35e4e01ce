//! Why an ask has no reply.
use std::alloc::AllocError;
use thiserror::Error;

/// Why an ask of a member has no reply.
#[derive(Clone, Copy, Debug, Error)]
pub enum PeerError {
    /// The member couldn't be asked or didn't answer, and the count of faults rose.
    #[error("the member failed")]
    Failed,
    /// Memory ran out.
    #[error("out of memory")]
    NoMemory,
}

impl From<AllocError> for PeerError {
    ghost use Rattle.std.specs.Prelude.{◌≡◌};
    ghost use Rattle.zot_proxy.specs.declared.peer_error.PeerError.TheVariants.{NoMemory};

    ghost from_gives = { λ _ e. e ≡ NoMemory };

    fn from(_: AllocError) -> PeerError {
        PeerError::NoMemory
    }
}
