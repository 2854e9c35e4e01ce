//! A source in memory that never fails.
ghost use Rattle.std.specs.Prelude.{◌≡◌, ◌≤◌, IfOk, OnErr, Some, [], length, min, vec_len};
ghost use Rattle.zot_outside.specs.Faults.{HasCause};
ghost use Rattle.zot_outside.specs.Streams.{Reads, Takes};

use zot_outside::{Failed, Source};

/// A source of given bytes that never fails: its count of faults stays 0. It tells the bytes that are left, and a call gives as many as the buffer has room for.
#[derive(Drop)]
pub struct SteadySource {
    bytes: Vec<u8>,
    start: usize,
    ghost within: { start ≤ vec_len bytes },
}

impl SteadySource {
    ghost use Rattle.zot_fakes.specs.Fakes.{steady_left};

    /// A source of these bytes. Takes no memory.
    pub fn new(bytes: Vec<u8>) -> Self
        ensures { steady_left result ≡ bytes.items }
    {
        SteadySource { bytes, start: 0 }
    }
}

impl Source for SteadySource {
    ghost use Rattle.std.specs.Prelude.{Some};
    ghost use Rattle.zot_fakes.specs.Fakes.{steady_left};

    ghost left = { λ s. Some (steady_left s) };

    ghost faults = { λ _. 0 };

    fn read(&mut self, buf: &mut [u8]) -> Result<usize, Failed>
        ensures cause { HasCause 0 0 result }
        ensures ok { IfOk result (λ n. Reads (Some (steady_left self.old)) (length buf.old) buf.new n (Some (steady_left self.new))) }
        ensures err { OnErr result (Takes (Some (steady_left self.old)) [] (Some (steady_left self.new))) }
        ensures gives { IfOk result (λ n. n ≡ min (length buf.old) (length (steady_left self.old))) }
    {
        let n = buf.len().min(self.bytes.len() - self.start);
        let end = self.start + n;
        buf[..n].copy_from_slice(&self.bytes[self.start..end]);
        self.start = end;
        Ok(n)
    }
}
