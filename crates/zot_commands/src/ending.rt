//! How a command ends that reads a configuration.
ghost use Rattle.std.specs.Prelude.{◌≡◌};
ghost use Rattle.zot_commands.specs.Verify.{ending_status as ending_status_of};

use zot_digest::Words;

/// How a command ended.
#[derive(Drop)]
pub enum Ending {
    /// It was done.
    Done,
    /// A write to the output failed.
    WriteFault,
    /// Memory ran out.
    NoMemory,
    /// The configuration was refused: its first wrong field by its whole path, and the text found there.
    Wrong { field: Words, found: Words },
    /// A call on the host failed.
    HostFault,
    /// The file isn't there.
    Missing,
}

/// The exit status for an ending.
pub fn ending_status(ending: &Ending) -> u8
    ensures { result ≡ ending_status_of ending.now }
{
    match ending {
        Ending::Done => 0,
        Ending::WriteFault => 6,
        Ending::NoMemory => 8,
        Ending::Wrong { .. } => 9,
        Ending::HostFault => 12,
        Ending::Missing => 14,
    }
}
