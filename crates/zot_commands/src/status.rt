//! The program's exit status.
ghost use Rattle.std.specs.Prelude.{◌≡◌};
ghost use Rattle.zot_commands.specs.Program.{exit_status as exit_status_of};

use zot_session::End;

/// The status that the program ends with.
#[derive(Clone, Copy, Debug, PartialEq, Eq)]
pub struct Status {
    /// 0 where the command was done, else the number of the cause.
    pub code: u8,
}

/// The exit status for an end of the connection.
pub fn exit_status(end: End) -> u8
    ensures { result ≡ exit_status_of end }
{
    match end {
        End::Closed => 0,
        End::Refused(_) => 3,
        End::Torn(_) => 4,
        End::ReadFault => 5,
        End::WriteFault => 6,
        End::Budget => 7,
        End::NoMemory => 8,
    }
}
