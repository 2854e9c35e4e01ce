//! What may be shared, and what may be done to it in a turn.
ghost use Rattle.std.specs.Prelude.{ℕ, List};
ghost use Rattle.zot_history.specs.History.{Replays, signed};

/// A kind of value that threads can share.
pub trait Object {
    /// What one step of the value is recorded as.
    type Entry;

    // which steps are legal: the value before, the number of the seat that steps, the entry, and the value after
    ghost step: { Self → ℕ → Self.Entry → Self → Type 0 };
}

/// What a thread does to the value in one turn.
pub trait Job<O: Object> {
    // what has to hold of the job, the seat's number and the value before a run
    ghost needs: { Self → ℕ → O → Type 0 };

    // what a run does: the job before it, the seat's number, the value before it and after it, and the job after it
    ghost does: { Self → ℕ → O → O → Self → Type 0 };

    // the entries of the last run
    ghost entries: { Self → List O.Entry };

    /// Runs the job once on the value, by legal steps of the seat with this number, and keeps their entries.
    fn run(&mut self, seat: u64, value: &mut O)
        requires { needs self.old seat value.old }
        ensures done { does self.old seat value.old value.new self.new }
        ensures legal { Replays O.step value.old (signed seat (entries self.new)) value.new };
}
