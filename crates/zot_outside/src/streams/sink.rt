//! Where bytes go.
ghost use Rattle.std.specs.Prelude.{IfOk, OnErr, []};
ghost use Rattle.zot_outside.specs.Faults.{HasCause};
ghost use Rattle.zot_outside.specs.Streams.{Appends, Writes};

use crate::failed::Failed;

/// A sink of bytes, as the writing end of a connection.
pub trait Sink {
    ghost use Rattle.std.specs.Prelude.{ℕ, List, Option};

    // The bytes that were written, or none if the sink doesn't tell.
    ghost held: { Self → Option (List ℕ) };

    // How many calls have failed. The count stops at 2^64 - 1.
    ghost faults: { Self → ℕ };

    /// Appends the first bytes of the piece, and answers how many: at least one if the piece isn't empty. A call that answers `Err` appended nothing.
    fn write(&mut self, piece: &[u8]) -> Result<usize, Failed>
        ensures cause { HasCause (faults self.old) (faults self.new) result }
        ensures ok { IfOk result (λ n. Writes (held self.old) piece.now n (held self.new)) }
        ensures err { OnErr result (Appends (held self.old) [] (held self.new)) };
}
