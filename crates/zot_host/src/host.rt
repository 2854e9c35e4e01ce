//! What the program takes from the system.
ghost use Rattle.std.specs.Prelude.{◌≡◌, ◌∷◌, [], IfOk, OnErr, OnOk};
ghost use Rattle.zot_host.specs.Files.{HasFile};
ghost use Rattle.zot_host.specs.Causes.{HasHostCause, OnMissing};
ghost use Rattle.zot_host.specs.Parts.{HandsOut, HasMoreRoom, KeepsRoom, TakesBack, UsesRoom};
ghost use Rattle.zot_outside.specs.Objects.{IsMissing};

use crate::host_error::HostResult;
use std::alloc::Global;
use zot_config::Config;
use zot_outside::{Clock, Gate, Store};
use zot_pool::Upstream;

/// A host of the program. `Missing` is an answer of `file` alone.
pub trait Host {
    ghost use Rattle.std.specs.Prelude.{ℕ, ◌≤◌, List, Option};
    ghost use Rattle.zot_outside.specs.Objects.{Objects};

    /// A part of the storage.
    type S: Store + Drop;

    /// An upstream, from which contents are mirrored.
    type U: Upstream + Drop;

    /// A clock of the host.
    type T: Clock + Drop;

    /// A gate of the host.
    type G: Gate + Drop;

    // The files by their paths, or none if the host doesn't tell. No call changes them.
    ghost files: { Self → Option Objects };

    // The parts that it has still to hand out, in their order, or none if it doesn't tell.
    ghost parts: { Self → Option (List Self.S) };

    // The parts that it was given back, in their order, or none if it doesn't tell.
    ghost kept: { Self → Option (List Self.S) };

    // There is room for so many parts to be given back.
    ghost room: { Self → ℕ → Type 0 };

    // The moment of the host's clocks, or none if it doesn't tell.
    ghost moment: { Self → Option ℕ };

    // How many calls have failed. The count stops at 2^64 - 1.
    ghost faults: { Self → ℕ };

    /// The bytes of the file of a path.
    fn file(&mut self, alloc: Global, path: &str) -> HostResult<Vec<u8>>
        ensures cause { HasHostCause (faults self.old) (faults self.new) result }
        ensures ok { IfOk result (λ bytes. HasFile (files self.old) path.now bytes.items) }
        ensures missing { OnMissing result (IsMissing (files self.old) path.now) }
        ensures files { files self.new ≡ files self.old }
        ensures parts { parts self.new ≡ parts self.old }
        ensures kept { kept self.new ≡ kept self.old }
        ensures room { KeepsRoom (room self.old) (room self.new) }
        ensures moment { moment self.new ≡ moment self.old };

    /// The part of the storage at a root. A host that tells its parts hands out the first that is left, whatever the root. Room is made in which the part can be given back.
    fn part(&mut self, alloc: Global, root: &str) -> HostResult<Self::S>
        ensures cause { HasHostCause (faults self.old) (faults self.new) result }
        ensures ok { IfOk result (λ part. HandsOut (parts self.old) (part ∷ []) (parts self.new)) }
        ensures err { OnErr result (parts self.new ≡ parts self.old) }
        ensures missing { OnMissing result ⊥ }
        ensures files { files self.new ≡ files self.old }
        ensures kept { kept self.new ≡ kept self.old }
        ensures room { KeepsRoom (room self.old) (room self.new) }
        ensures more { OnOk result (HasMoreRoom (room self.old) 1 (room self.new)) }
        ensures moment { moment self.new ≡ moment self.old };

    /// Takes back a part that was closed, for which there is room. Takes no memory.
    fn keep(&mut self, part: Self::S)
        requires { room self.old 1 }
        ensures kept { TakesBack (kept self.old) (part ∷ []) (kept self.new) }
        ensures room { UsesRoom (room self.old) 1 (room self.new) }
        ensures faults { faults self.new ≡ faults self.old }
        ensures files { files self.new ≡ files self.old }
        ensures parts { parts self.new ≡ parts self.old }
        ensures moment { moment self.new ≡ moment self.old };

    /// The upstream of a configuration.
    fn upstream(&mut self, alloc: Global, config: &Config) -> HostResult<Self::U>
        ensures cause { HasHostCause (faults self.old) (faults self.new) result }
        ensures missing { OnMissing result ⊥ }
        ensures files { files self.new ≡ files self.old }
        ensures parts { parts self.new ≡ parts self.old }
        ensures kept { kept self.new ≡ kept self.old }
        ensures room { KeepsRoom (room self.old) (room self.new) }
        ensures moment { moment self.new ≡ moment self.old };

    /// A clock. Takes no memory.
    fn clock(&mut self) -> Self::T
        ensures clock { Self.T.moment result ≡ moment self.old }
        ensures faults { faults self.new ≡ faults self.old }
        ensures files { files self.new ≡ files self.old }
        ensures parts { parts self.new ≡ parts self.old }
        ensures kept { kept self.new ≡ kept self.old }
        ensures room { KeepsRoom (room self.old) (room self.new) }
        ensures moment { moment self.new ≡ moment self.old };

    /// A gate. Takes no memory.
    fn gate(&mut self) -> Self::G
        ensures faults { faults self.new ≡ faults self.old }
        ensures files { files self.new ≡ files self.old }
        ensures parts { parts self.new ≡ parts self.old }
        ensures kept { kept self.new ≡ kept self.old }
        ensures room { KeepsRoom (room self.old) (room self.new) }
        ensures moment { moment self.new ≡ moment self.old };

    // There is always room for no part.
    ghost none: { (h : Self) → room h 0 };

    // Where there is room for some parts, there is room for fewer.
    ghost fewer: { (h : Self) (n m : ℕ) → n ≤ m → room h m → room h n };
}
