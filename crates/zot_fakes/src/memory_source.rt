//! A source in memory that fails by a list.
ghost use Rattle.std.specs.Prelude.{◌≡◌, ◌<◌, IfOk, OnErr, Some, [], length, min};
ghost use Rattle.zot_fakes.specs.Calls.{FailsByList};
ghost use Rattle.zot_outside.specs.Faults.{HasCause};
ghost use Rattle.zot_outside.specs.Streams.{Reads, Takes};

use crate::calls::Calls;
use crate::steady_source::SteadySource;
use zot_outside::{Failed, Source};

/// A source of given bytes, which come in pieces. It tells the bytes that are left, and fails exactly the calls of a list.
#[derive(Drop)]
pub struct MemorySource {
    source: SteadySource,
    piece: usize,
    calls: Calls,
    ghost moves: { 0 < piece },
}

impl MemorySource {
    ghost use Rattle.zot_fakes.specs.Fakes.{source_calls, source_left, source_piece};

    /// A source of these bytes, of which a call gives at most `piece`. The calls whose numbers, from 1, are listed fail. Takes no memory.
    pub fn new(bytes: Vec<u8>, piece: usize, failing: Vec<u64>) -> Self
        requires { 0 < piece }
        ensures left { source_left result ≡ bytes.items }
        ensures piece { source_piece result ≡ piece }
        ensures calls { source_calls result ≡ record { failing = failing.items; made = 0; faults = 0 } }
    {
        MemorySource {
            source: SteadySource::new(bytes),
            piece,
            calls: Calls::new(failing),
        }
    }
}

impl Source for MemorySource {
    ghost use Rattle.std.specs.Prelude.{Some};
    ghost use Rattle.zot_fakes.specs.Fakes.{source_calls, source_left, source_piece};

    ghost left = { λ s. Some (source_left s) };

    ghost faults = { λ s. (source_calls s).faults };

    fn read(&mut self, buf: &mut [u8]) -> Result<usize, Failed>
        ensures cause { HasCause (source_calls self.old).faults (source_calls self.new).faults result }
        ensures ok { IfOk result (λ n. Reads (Some (source_left self.old)) (length buf.old) buf.new n (Some (source_left self.new))) }
        ensures err { OnErr result (Takes (Some (source_left self.old)) [] (Some (source_left self.new))) }
        ensures listed { FailsByList (source_calls self.old) result (source_calls self.new) }
        ensures gives { IfOk result (λ n. n ≡ min (min (length buf.old) (source_piece self.old)) (length (source_left self.old))) }
        ensures piece { source_piece self.new ≡ source_piece self.old }
    {
        if self.calls.next_fails() {
            return Err(Failed);
        }
        let n = buf.len().min(self.piece);
        self.source.read(&mut buf[..n])
    }
}
