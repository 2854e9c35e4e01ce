use std::alloc::AllocError;
use thiserror::Error;

/// Why bytes aren't read as a head.
#[derive(Clone, Copy, Debug, Error)]
pub enum HeadError {
    /// They aren't a request's head (RFC 9112, sections 3 to 5), or its fields don't frame one body
    /// (section 6.3).
    #[error("the bytes are no request's head")]
    Bad,
    /// More than 64 lines stand between the first line and the empty line.
    #[error("the head has too many lines")]
    TooLong,
    /// Memory ran out.
    #[error("out of memory")]
    NoMemory,
}

impl From<AllocError> for HeadError {
    ghost use Rattle.std.specs.Prelude.{◌≡◌};
    ghost use Rattle.zot_head.specs.declared.head_error.HeadError.TheVariants.{NoMemory};

    ghost from_gives = { λ _ e. e ≡ NoMemory };

    fn from(_: AllocError) -> HeadError {
        HeadError::NoMemory
    }
}
