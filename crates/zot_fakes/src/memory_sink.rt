//! A sink in memory that fails by a list.
ghost use Rattle.std.specs.Prelude.{◌≡◌, ◌<◌, ◌-◌, ◌^◌, IfOk, OnErr, Some, [], length, min};
ghost use Rattle.zot_fakes.specs.Calls.{FailsByListOr};
ghost use Rattle.zot_outside.specs.Faults.{HasCause};
ghost use Rattle.zot_outside.specs.Streams.{Appends, Writes};

use crate::calls::Calls;
use std::alloc::Global;
use zot_outside::{Failed, Sink};

/// A sink that keeps what is written, and tells it. It fails the calls of a list, and any other call only where memory runs out.
#[derive(Drop)]
pub struct MemorySink {
    bytes: Vec<u8>,
    piece: usize,
    calls: Calls,
    ghost moves: { 0 < piece },
}

impl MemorySink {
    ghost use Rattle.zot_fakes.specs.Fakes.{sink_calls, sink_held, sink_piece};

    /// An empty sink that takes each piece whole. The calls whose numbers, from 1, are listed fail. Takes no memory.
    pub fn new(alloc: Global, failing: Vec<u64>) -> Self
        ensures held { sink_held result ≡ [] }
        ensures piece { sink_piece result ≡ 2 ^ 64 - 1 }
        ensures calls { sink_calls result ≡ record { failing = failing.items; made = 0; faults = 0 } }
    {
        MemorySink::in_pieces(alloc, usize::MAX, failing)
    }

    /// The same, but a call takes at most `piece` bytes. Takes no memory.
    pub fn in_pieces(alloc: Global, piece: usize, failing: Vec<u64>) -> Self
        requires { 0 < piece }
        ensures held { sink_held result ≡ [] }
        ensures piece { sink_piece result ≡ piece }
        ensures calls { sink_calls result ≡ record { failing = failing.items; made = 0; faults = 0 } }
    {
        MemorySink {
            bytes: Vec::new(alloc),
            piece,
            calls: Calls::new(failing),
        }
    }

    /// What was written.
    pub fn written(&self) -> &[u8]
        ensures { result.now ≡ sink_held self.now }
    {
        self.bytes.as_slice()
    }
}

impl Sink for MemorySink {
    ghost use Rattle.std.specs.Prelude.{Some};
    ghost use Rattle.zot_fakes.specs.Fakes.{IsShortOf, sink_calls, sink_held, sink_piece};

    ghost held = { λ s. Some (sink_held s) };

    ghost faults = { λ s. (sink_calls s).faults };

    fn write(&mut self, piece: &[u8]) -> Result<usize, Failed>
        ensures cause { HasCause (sink_calls self.old).faults (sink_calls self.new).faults result }
        ensures ok { IfOk result (λ n. Writes (Some (sink_held self.old)) piece.now n (Some (sink_held self.new))) }
        ensures err { OnErr result (Appends (Some (sink_held self.old)) [] (Some (sink_held self.new))) }
        ensures listed { FailsByListOr (IsShortOf (min (length piece.now) (sink_piece self.old)) self.old) (sink_calls self.old) result (sink_calls self.new) }
        ensures takes { IfOk result (λ n. n ≡ min (length piece.now) (sink_piece self.old)) }
        ensures piece { sink_piece self.new ≡ sink_piece self.old }
    {
        let listed = self.calls.next_fails();
        let n = piece.len().min(self.piece);
        if listed {
            return Err(Failed);
        }
        if self.bytes.extend_from_slice(&piece[..n]).is_err() {
            self.calls.fault();
            return Err(Failed);
        }
        Ok(n)
    }
}
