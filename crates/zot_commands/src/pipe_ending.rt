//! How `pipe` ends over the configured storage.
ghost use Rattle.std.specs.Prelude.{◌≡◌, ◌≢◌};
ghost use Rattle.zot_commands.specs.PipeEndings.{declined_ending, pipe_status as pipe_status_of, unopened_ending as unopened_ending_of};
ghost use Rattle.zot_host.specs.declared.host_error.HostError.TheVariants as errors;

use crate::status::exit_status;
use zot_digest::Words;
use zot_host::HostError;
use zot_rows::RowsOpenError;
use zot_session::End;

/// How `pipe` ended over the configured storage.
#[derive(Drop)]
pub enum PipeEnding {
    /// A connection was served, and ended so.
    Served(End),
    /// The configuration was refused: its first wrong field by its whole path, and the text found there.
    Wrong { field: Words, found: Words },
    /// The file of the configuration isn't there.
    Missing,
    /// The configuration has no member with this number.
    OutOfRange,
    /// A call on the host failed.
    HostFault,
    /// The marker or the index at this path of the storage has no meaning.
    BadIndex(Words),
    /// The record or the index at this path of the storage has no meaning.
    BadMeta(Words),
    /// A part of the storage failed while it was opened.
    StorageFault,
    /// Memory ran out.
    NoMemory,
}

/// The exit status for an ending.
pub fn pipe_status(ending: &PipeEnding) -> u8
    ensures { result ≡ pipe_status_of ending.now }
{
    match ending {
        PipeEnding::Served(end) => exit_status(*end),
        PipeEnding::Wrong { .. } => 9,
        PipeEnding::Missing => 14,
        PipeEnding::OutOfRange => 2,
        PipeEnding::HostFault => 12,
        PipeEnding::BadIndex(_) | PipeEnding::BadMeta(_) => 10,
        PipeEnding::StorageFault => 11,
        PipeEnding::NoMemory => 8,
    }
}

/// The ending for a call of the host without a result, which isn't the call for a file.
pub fn declined(error: HostError) -> PipeEnding
    requires { error ≢ errors.Missing }
    ensures { result ≡ declined_ending error }
{
    match error {
        HostError::Failed => PipeEnding::HostFault,
        HostError::NoMemory => PipeEnding::NoMemory,
        HostError::Missing => unreachable!(),
    }
}

/// The ending for storage that wasn't opened.
pub fn unopened_ending(error: RowsOpenError) -> PipeEnding
    ensures { result ≡ unopened_ending_of error }
{
    match error {
        RowsOpenError::BadIndex { path, .. } => PipeEnding::BadIndex(path),
        RowsOpenError::BadMeta { path, .. } => PipeEnding::BadMeta(path),
        RowsOpenError::RowFault(_) | RowsOpenError::ShardFault(_) => PipeEnding::StorageFault,
        RowsOpenError::NoMemory => PipeEnding::NoMemory,
    }
}
