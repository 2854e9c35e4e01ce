//! A writer of std as a sink.
ghost use Rattle.std.specs.Prelude.{◌≡◌, ◌<◌, IfOk, OnErr, length};
ghost use Rattle.zot_outside.specs.Faults.{HasCause};

use crate::failed::Failed;
use crate::streams::Sink;
use std::io;
use std::io::Write;

/// A writer of std as a sink. It tells what the writer tells: a `Vec` tells its bytes, and a terminal, a file or a stream of the network doesn't. It counts each failed write. A write that takes nothing of a piece has failed too.
#[derive(Drop)]
pub struct WriterSink<W> {
    writer: W,
    faults: u64,
}

impl<W> WriterSink<W> {
    /// The sink over a writer. Takes no memory.
    pub fn new(writer: W) -> Self
        ensures writer { result.writer ≡ writer }
        ensures faults { result.faults ≡ 0 }
    {
        WriterSink { writer, faults: 0 }
    }

    // What a call answers for a write of a piece.
    fn done(&mut self, piece: &[u8], written: io::Result<usize>) -> Result<usize, Failed>
        ensures cause { HasCause self.old.faults self.new.faults result }
        ensures ok { IfOk result (λ n. written ≡ Ok n) }
        ensures progress { IfOk result (λ n. 0 < length piece.now → 0 < n) }
        ensures whole { IfOk written (λ n. (0 < length piece.now → 0 < n) → result ≡ Ok n) }
        ensures lost { OnErr result (IfOk written (λ n. n ≡ 0)) }
        ensures writer { self.new.writer ≡ self.old.writer }
    {
        match written {
            Ok(n) if n > 0 || piece.is_empty() => Ok(n),
            _ => {
                self.faults = self.faults.saturating_add(1);
                Err(Failed)
            }
        }
    }
}

impl<W: Write> Sink for WriterSink<W> {
    ghost held = { λ s. W.contents s.writer };

    ghost faults = { λ s. s.faults };

    fn write(&mut self, piece: &[u8]) -> Result<usize, Failed> {
        let written = self.writer.write(piece);
        self.done(piece, written)
    }
}
