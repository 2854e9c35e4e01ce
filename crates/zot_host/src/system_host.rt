//! The system as a host.
ghost use Rattle.std.specs.Prelude.{◌≡◌};

use crate::answers::answer;
use crate::host::Host;
use crate::host_error::HostResult;
use std::alloc::Global;
use std::fs::{self, File, Files};
use std::rt;
use zot_config::Config;
use zot_folder::{Disk, FolderStore, Tree};
use zot_outside::{OpenGate, SystemClock};
use zot_pool::MemoryUpstream;

/// The system as a host. Its parts are folders, each at its root, its upstreams hold nothing, and its gates are open. It tells nothing, and counts each call of the system that failed.
#[derive(Drop)]
pub struct SystemHost<R> {
    rt: R,
    faults: u64,
}

impl<R> SystemHost<R> {
    /// The host of a runtime. Takes no memory.
    pub fn new(rt: R) -> Self
        ensures rt { result.rt ≡ rt }
        ensures faults { result.faults ≡ 0 }
    {
        SystemHost { rt, faults: 0 }
    }
}

// `Disk<R>` is a tree by the other bounds. The bound on it is written out since rattle gives callers no proof without it.
impl<R: Files<File = File> + AllocGlobal + rt::Clock + Copy> Host for SystemHost<R>
where
    Disk<R>: Tree,
{
    ghost use Rattle.std.specs.Prelude.{None, ⊤};

    type S = FolderStore<Disk<R>>;

    type U = MemoryUpstream;

    type T = SystemClock<R>;

    type G = OpenGate;

    ghost files = { λ _. None };

    ghost parts = { λ _. None };

    ghost kept = { λ _. None };

    ghost room = { λ _ _. ⊤ };

    ghost moment = { λ _. None };

    ghost faults = { λ h. h.faults };

    ghost none = { λ _. tt };

    ghost fewer = { λ _ _ _ _ _. tt };

    fn file(&mut self, _alloc: Global, path: &str) -> HostResult<Vec<u8>> {
        let read = fs::read(&self.rt, path);
        answer(&mut self.faults, read)
    }

    fn part(&mut self, alloc: Global, root: &str) -> HostResult<FolderStore<Disk<R>>> {
        let folder = Disk::new(self.rt, alloc, root)?;
        Ok(FolderStore::over(folder, alloc))
    }

    // The part's objects stay in its folder.
    fn keep(&mut self, _part: FolderStore<Disk<R>>) {}

    fn upstream(&mut self, _alloc: Global, _config: &Config) -> HostResult<MemoryUpstream> {
        Ok(MemoryUpstream::empty())
    }

    fn clock(&mut self) -> SystemClock<R> {
        SystemClock::new(self.rt)
    }

    fn gate(&mut self) -> OpenGate {
        OpenGate
    }
}
