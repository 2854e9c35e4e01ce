//! A reader of std as a source.
ghost use Rattle.std.specs.Prelude.{◌≡◌, IfOk};
ghost use Rattle.zot_outside.specs.Faults.{HasCause};

use crate::failed::Failed;
use crate::streams::Source;
use std::io;
use std::io::Read;

/// A reader of std as a source. It tells what the reader tells: a slice tells its bytes, and a terminal, a file or a stream of the network doesn't. It counts each failed read.
#[derive(Drop)]
pub struct ReaderSource<R> {
    reader: R,
    faults: u64,
}

impl<R> ReaderSource<R> {
    /// The source over a reader. Takes no memory.
    pub fn new(reader: R) -> Self
        ensures reader { result.reader ≡ reader }
        ensures faults { result.faults ≡ 0 }
    {
        ReaderSource { reader, faults: 0 }
    }

    // What a call answers for a read. A read that gave nothing hasn't failed.
    fn done(&mut self, read: io::Result<usize>) -> Result<usize, Failed>
        ensures cause { HasCause self.old.faults self.new.faults result }
        ensures ok { IfOk result (λ n. read ≡ Ok n) }
        ensures whole { IfOk read (λ n. result ≡ Ok n) }
        ensures reader { self.new.reader ≡ self.old.reader }
    {
        match read {
            Ok(n) => Ok(n),
            Err(_) => {
                self.faults = self.faults.saturating_add(1);
                Err(Failed)
            }
        }
    }
}

impl<R: Read> Source for ReaderSource<R> {
    ghost left = { λ s. R.remaining s.reader };

    ghost faults = { λ s. s.faults };

    fn read(&mut self, buf: &mut [u8]) -> Result<usize, Failed> {
        let read = self.reader.read(buf);
        self.done(read)
    }
}
