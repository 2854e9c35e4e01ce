//! Why bytes weren't read as a reply.
use std::alloc::AllocError;
use thiserror::Error;

/// Why bytes weren't read as a reply.
#[derive(Clone, Copy, Debug, PartialEq, Eq, Error)]
pub enum ReadReplyError {
    /// The bytes spell no reply to the request.
    #[error("not a reply to the request")]
    Bad,
    /// Memory ran out.
    #[error("out of memory")]
    NoMemory,
}

impl From<AllocError> for ReadReplyError {
    ghost use Rattle.std.specs.Prelude.{◌≡◌};
    ghost use Rattle.zot_reply.specs.declared.read_reply_error.ReadReplyError.TheVariants.{NoMemory};

    ghost from_gives = { λ _ e. e ≡ NoMemory };

    fn from(_: AllocError) -> ReadReplyError {
        ReadReplyError::NoMemory
    }
}
