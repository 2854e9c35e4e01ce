//! Where bytes come from.
ghost use Rattle.std.specs.Prelude.{IfOk, OnErr, length, []};
ghost use Rattle.zot_outside.specs.Faults.{HasCause};
ghost use Rattle.zot_outside.specs.Streams.{Reads, Takes};

use crate::failed::Failed;

/// A source of bytes, as the reading end of a connection.
pub trait Source {
    ghost use Rattle.std.specs.Prelude.{ℕ, List, Option};

    // The bytes that are left, or none if the source doesn't tell.
    ghost left: { Self → Option (List ℕ) };

    // How many calls have failed. The count stops at 2^64 - 1.
    ghost faults: { Self → ℕ };

    /// Moves the first bytes that are left into the buffer, and answers how many. It answers 0 exactly where the buffer is empty or nothing is left. A call that answers `Err` took nothing.
    fn read(&mut self, buf: &mut [u8]) -> Result<usize, Failed>
        ensures cause { HasCause (faults self.old) (faults self.new) result }
        ensures ok { IfOk result (λ n. Reads (left self.old) (length buf.old) buf.new n (left self.new)) }
        ensures err { OnErr result (Takes (left self.old) [] (left self.new)) };
}
