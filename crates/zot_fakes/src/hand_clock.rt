//! A clock that stands still.
ghost use Rattle.std.specs.Prelude.{◌≡◌};

use zot_outside::Clock;

/// A clock that is set by hand and stands still. It tells its moment.
#[derive(Clone, Copy)]
pub struct HandClock {
    moment: u64,
}

impl HandClock {
    ghost use Rattle.zot_fakes.specs.Fakes.{clock_moment};

    /// A clock at a moment.
    pub fn new(moment: u64) -> Self
        ensures { clock_moment result ≡ moment }
    {
        HandClock { moment }
    }
}

impl Clock for HandClock {
    ghost use Rattle.std.specs.Prelude.{Some};
    ghost use Rattle.zot_fakes.specs.Fakes.{clock_moment};

    ghost moment = { λ c. Some (clock_moment c) };

    fn now(&mut self) -> u64 {
        self.moment
    }
}
