//! Why a reply isn't sent whole.
ghost use Rattle.std.specs.Prelude.{◌≡◌};
ghost use Rattle.zot_session.specs.Sending.{end_unsent};

use crate::end::End;

/// Why a reply wasn't sent whole.
#[derive(Clone, Copy)]
pub enum SendError {
    /// The sink failed; a part of the reply was written.
    Fault,
    /// Memory ran out; nothing was written.
    NoMemory,
}

impl SendError {
    /// The end of the connection.
    pub fn end(self) -> End
        ensures { result ≡ end_unsent self }
    {
        match self {
            SendError::Fault => End::WriteFault,
            SendError::NoMemory => End::NoMemory,
        }
    }
}
