//! What tells the time.
ghost use Rattle.zot_outside.specs.Moments.{IsAt, StaysAt};

/// A clock of whole seconds.
pub trait Clock {
    ghost use Rattle.std.specs.Prelude.{ℕ, Option};

    // The moment of the clock, or none if it doesn't tell.
    ghost moment: { Self → Option ℕ };

    /// The moment, in seconds. A clock that tells its moment answers that one, and stays at it.
    fn now(&mut self) -> u64
        ensures told { IsAt (moment self.old) result }
        ensures kept { StaysAt (moment self.old) (moment self.new) };
}
