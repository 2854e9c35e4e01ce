//! The stage of a body in chunks after one more byte.
ghost use Rattle.std.specs.Prelude.{◌≡◌, ℕ, ◌<◌, List, [], ◌∷◌};
ghost use Rattle.zot_head.specs.Progress.{trailer_end, trailer_end_after, reading_at, IsSound};
ghost use Rattle.zot_head.specs.Chunked.{from_size, chunked};

use crate::chunk_error::ChunkError;
use crate::chunk_line::size_of;
use crate::limits::{CHUNK_LINE_LIMIT, TRAILER_LIMIT};
use crate::pending::Pending;
use crate::stage::{LineSoFar, Stage};

/// The stage after a chunk's line of that size, and how many bytes the body may have more.
fn after_size(size: Option<u64>, room: u64) -> (Stage, u64)
    ensures same { (more : List ℕ) → from_size chunked room size more
        ≡ reading_at result.0 result.1 [] more }
    ensures sound { IsSound result.0 [] }
{
    match size {
        None => (Stage::Failed(ChunkError::Bad), room),
        Some(0) => (Stage::Trailer(LineSoFar::Start, TRAILER_LIMIT), room),
        Some(size) if size > room => (Stage::Failed(ChunkError::TooLarge), room),
        Some(size) => (Stage::Bytes(size), room - size),
    }
}

/// The stage after a byte of a chunk's line, and how many bytes the body may have more.
pub(crate) fn after_line_byte(line: &mut Pending, room: u64, byte: u8) -> (Stage, u64)
    requires { IsSound Stage.Line line.old }
    ensures same { (more : List ℕ) → reading_at Stage.Line room line.old (byte ∷ more)
        ≡ reading_at result.0 result.1 line.new more }
    ensures sound { IsSound result.0 line.new }
{
    line.push(byte);
    if byte == b'\n' {
        let size = size_of(line.as_slice());
        line.clear();
        return after_size(size, room);
    }
    if line.len() == CHUNK_LINE_LIMIT {
        return (Stage::Failed(ChunkError::Bad), room);
    }
    (Stage::Line, room)
}

/// The stage after a byte of the CR LF that stands after a chunk.
pub(crate) fn after_tail_byte(first: Option<u8>, byte: u8) -> Stage
    ensures same { (room : ℕ) (more : List ℕ) → reading_at (Stage.Tail first) room [] (byte ∷ more)
        ≡ reading_at result room [] more }
    ensures sound { IsSound result [] }
{
    match first {
        None => Stage::Tail(Some(byte)),
        Some(b'\r') if byte == b'\n' => Stage::Line,
        Some(_) => Stage::Failed(ChunkError::Bad),
    }
}

/// How much has come of a trailer line, or none after the empty one.
fn next_line(so_far: LineSoFar, byte: u8) -> Option<LineSoFar>
    ensures { (bytes : List ℕ) → trailer_end so_far (byte ∷ bytes)
        ≡ trailer_end_after result bytes }
{
    match so_far {
        LineSoFar::Start if byte == b'\n' => None,
        LineSoFar::Start if byte == b'\r' => Some(LineSoFar::Return),
        LineSoFar::Return if byte == b'\n' => None,
        LineSoFar::Inside if byte == b'\n' => Some(LineSoFar::Start),
        _ => Some(LineSoFar::Inside),
    }
}

/// The stage after a byte of the trailer section.
pub(crate) fn after_trailer_byte(so_far: LineSoFar, left: usize, byte: u8) -> Stage
    requires { 0 < left }
    ensures same { (room : ℕ) (line more : List ℕ)
        → reading_at (Stage.Trailer so_far left) room line (byte ∷ more)
        ≡ reading_at result room line more }
    ensures sound { (line : List ℕ) → IsSound result line }
{
    match next_line(so_far, byte) {
        None => Stage::Done,
        Some(_) if left == 1 => Stage::Failed(ChunkError::TooLong),
        Some(so_far) => Stage::Trailer(so_far, left - 1),
    }
}
