//! A host of these cases.
ghost use Rattle.std.specs.Prelude.{◌≡◌, Err};
ghost use Rattle.zot_host.specs.Causes.{HasHostCause};
ghost use Rattle.zot_host.specs.declared.host_error.HostError.TheVariants.{Failed};

use std::alloc::Global;
use zot_config::Config;
use zot_fakes::{HandClock, MemoryStore};
use zot_host::{Host, HostError, HostResult};
use zot_outside::OpenGate;
use zot_pool::MemoryUpstream;

/// A host whose every call that may fail does. It tells its moment.
#[derive(Drop)]
pub struct FaultyHost {
    faults: u64,
}

impl FaultyHost {
    /// The host, of which no call was made yet.
    pub fn new() -> FaultyHost {
        FaultyHost { faults: 0 }
    }

    // Counts a fault.
    fn fail<T>(&mut self) -> HostResult<T>
        ensures { HasHostCause self.old.faults self.new.faults result × (result ≡ Err Failed) }
    {
        self.faults = self.faults.saturating_add(1);
        Err(HostError::Failed)
    }
}

impl Host for FaultyHost {
    ghost use Rattle.std.specs.Prelude.{None, Some, ⊤};

    type S = MemoryStore;

    type U = MemoryUpstream;

    type T = HandClock;

    type G = OpenGate;

    ghost files = { λ _. None };

    ghost parts = { λ _. None };

    ghost kept = { λ _. None };

    ghost room = { λ _ _. ⊤ };

    ghost moment = { λ _. Some 7 };

    ghost faults = { λ h. h.faults };

    ghost none = { λ _. tt };

    ghost fewer = { λ _ _ _ _ _. tt };

    fn file(&mut self, _alloc: Global, _path: &str) -> HostResult<Vec<u8>> {
        self.fail()
    }

    fn part(&mut self, _alloc: Global, _root: &str) -> HostResult<MemoryStore> {
        self.fail()
    }

    fn keep(&mut self, _part: MemoryStore) {}

    fn upstream(&mut self, _alloc: Global, _config: &Config) -> HostResult<MemoryUpstream> {
        self.fail()
    }

    fn clock(&mut self) -> HandClock {
        HandClock::new(7)
    }

    fn gate(&mut self) -> OpenGate {
        OpenGate
    }
}
