//! The system's clock.
ghost use Rattle.std.specs.Prelude.{◌≡◌};

use crate::clocks::Clock;
use std::rt;
use std::time::{SystemTime, UNIX_EPOCH};

/// The system's clock, in seconds since the start of 1970. It doesn't tell its moment.
#[derive(Drop)]
pub struct SystemClock<R> {
    rt: R,
}

impl<R> SystemClock<R> {
    /// The clock of a runtime. Takes no memory.
    pub fn new(rt: R) -> Self
        ensures { result.rt ≡ rt }
    {
        SystemClock { rt }
    }
}

impl<R: rt::Clock> Clock for SystemClock<R> {
    ghost use Rattle.std.specs.Prelude.{None};

    ghost moment = { λ _. None };

    // A clock that can't be read, or is before 1970, answers 0: then nothing looks older than it is.
    fn now(&mut self) -> u64 {
        match SystemTime::now(&self.rt) {
            Ok(time) => time
                .duration_since(UNIX_EPOCH)
                .map_or(0, |since| since.as_secs()),
            Err(_) => 0,
        }
    }
}
