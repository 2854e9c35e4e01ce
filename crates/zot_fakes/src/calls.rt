//! Calls that fail by a list of their numbers.
ghost use Rattle.std.specs.Prelude.{◌≡◌, ◌≤◌};

use std::marker::Model;

/// The numbers, from 1, of the calls that are to fail, how many calls were made, and how many of them failed. Both counts stop at 2^64 - 1.
#[derive(Drop)]
pub struct Calls {
    failing: Vec<u64>,
    made: u64,
    faults: u64,
}

impl Model for Calls {
    ghost use Rattle.zot_fakes.specs.Calls.{Count};

    ghost Value = { Count };

    ghost view = { λ c. record { failing = c.failing.items; made = c.made; faults = c.faults } };
}

impl Calls {
    ghost use Rattle.zot_fakes.specs.Calls.{counted, fails, one_more};

    /// No calls yet. Those with these numbers are to fail.
    pub fn new(failing: Vec<u64>) -> Self
        ensures { result ≡ record { failing = failing.items; made = 0; faults = 0 } }
    {
        Calls {
            failing,
            made: 0,
            faults: 0,
        }
    }

    /// How many calls were made.
    pub fn made(&self) -> u64
        ensures { result ≡ self.now.made }
    {
        self.made
    }

    /// Counts a call, and answers whether it is to fail. If so it counts a fault too.
    pub fn next_fails(&mut self) -> bool
        ensures answer { result ≡ fails self.old }
        ensures counts { self.new ≡ counted self.old }
        ensures later { self.old.faults ≤ self.new.faults }
    {
        self.made = self.made.saturating_add(1);
        let fails = self.failing.contains(&self.made);
        if fails {
            self.faults = self.faults.saturating_add(1);
        }
        fails
    }

    /// Counts a fault that isn't listed.
    pub fn fault(&mut self)
        ensures counts { self.new ≡ record self.old { faults = one_more self.old.faults } }
        ensures later { self.old.faults ≤ self.new.faults }
    {
        self.faults = self.faults.saturating_add(1);
    }
}
