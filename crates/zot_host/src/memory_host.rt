//! A host in memory.
ghost use Rattle.std.specs.Prelude.{◌≡◌, ◌∷◌, [], IfOk, OnErr, OnOk, map as each, string_bytes};
ghost use Rattle.zot_fakes.specs.Given.{objects_of};
ghost use Rattle.zot_host.specs.Causes.{FailsJustWhere, HasHostCause, OnMissing};
ghost use Rattle.zot_host.specs.Files.{HasFile};
ghost use Rattle.zot_host.specs.Parts.{HandsOut, HasMoreRoom, KeepsRoom};
ghost use Rattle.zot_outside.specs.Objects.{IsMissing};

use crate::answers::fault;
use crate::host::Host;
use crate::host_error::{HostError, HostResult};
use crate::room::{make_room, put_last, take_first};
use std::alloc::{AllocError, Global};
use zot_config::Config;
use zot_fakes::{HandClock, MemoryStore};
use zot_outside::{Gate, Store};
use zot_pool::Upstream;

/// A host in memory, which tells its files, its parts and its moment. It hands out the parts and the upstreams that it was given, in their order. Asked for more of them it fails, and no other call fails.
#[derive(Drop)]
pub struct MemoryHost<S, U, G> {
    files: MemoryStore,
    parts: Vec<S>,
    kept: Vec<S>,
    upstreams: Vec<U>,
    clock: HandClock,
    gate: G,
    faults: u64,
}

impl<S: Drop, U: Drop, G: Copy> MemoryHost<S, U, G> {
    ghost use Rattle.zot_host.specs.Hosts.{host_faults, host_files, host_kept, host_moment, host_parts, host_upstreams};

    /// A host with these files, parts and upstreams, whose clocks stand at the moment, and with this gate. Of the files with one path the last counts, and a path without one is missing. It fails only where memory runs out.
    pub fn new(
        alloc: Global,
        files: Vec<(String, Vec<u8>)>,
        parts: Vec<S>,
        upstreams: Vec<U>,
        moment: u64,
        gate: G,
    ) -> Result<MemoryHost<S, U, G>, AllocError>
        ensures files { IfOk result (λ host. host_files host ≡ objects_of (each (λ o. (string_bytes o.0, o.1.items)) files.items)) }
        ensures parts { IfOk result (λ host. host_parts host ≡ parts.items) }
        ensures kept { IfOk result (λ host. host_kept host ≡ []) }
        ensures upstreams { IfOk result (λ host. host_upstreams host ≡ upstreams.items) }
        ensures moment { IfOk result (λ host. host_moment host ≡ moment) }
        ensures gate { IfOk result (λ host. host.gate ≡ gate) }
        ensures faults { IfOk result (λ host. host_faults host ≡ 0) }
    {
        Ok(MemoryHost {
            files: MemoryStore::new(alloc, files, Vec::new(alloc))?,
            parts,
            kept: Vec::new(alloc),
            upstreams,
            clock: HandClock::new(moment),
            gate,
            faults: 0,
        })
    }

    /// The parts that it was given back, in their order.
    pub fn kept(self) -> Vec<S>
        ensures { result.items ≡ host_kept self }
    {
        self.kept
    }
}

impl<S: Store + Drop, U: Upstream + Drop, G: Gate + Copy> Host for MemoryHost<S, U, G> {
    ghost use Rattle.std.specs.Prelude.{Some, vec_len};
    ghost use Rattle.std.proofs.Common.{add-le-add, add-zero, le_of_eq, le_refl, le_trans};
    ghost use Rattle.zot_host.specs.Hosts.{HasHostRoom, host_faults, host_files, host_kept, host_moment, host_parts, host_upstreams};

    type S = S;

    type U = U;

    type T = HandClock;

    type G = G;

    ghost files = { λ h. Some (host_files h) };

    ghost parts = { λ h. Some (host_parts h) };

    ghost kept = { λ h. Some (host_kept h) };

    ghost room = { HasHostRoom };

    ghost moment = { λ h. Some (host_moment h) };

    ghost faults = { host_faults };

    ghost none = { λ h. le_trans (le_of_eq (add-zero (vec_len h.kept))) h.kept.ok.1 };

    ghost fewer = { λ h _ _ less fits. le_trans (add-le-add (le_refl (vec_len h.kept)) less) fits };

    fn file(&mut self, alloc: Global, path: &str) -> HostResult<Vec<u8>>
        ensures cause { HasHostCause (host_faults self.old) (host_faults self.new) result }
        ensures ok { IfOk result (λ bytes. HasFile (Some (host_files self.old)) path.now bytes.items) }
        ensures missing { OnMissing result (IsMissing (Some (host_files self.old)) path.now) }
        ensures files { Some (host_files self.new) ≡ Some (host_files self.old) }
        ensures parts { Some (host_parts self.new) ≡ Some (host_parts self.old) }
        ensures kept { Some (host_kept self.new) ≡ Some (host_kept self.old) }
        ensures room { KeepsRoom (HasHostRoom self.old) (HasHostRoom self.new) }
        ensures moment { Some (host_moment self.new) ≡ Some (host_moment self.old) }
        ensures fails { FailsJustWhere result ⊥ }
    {
        match self.files.object(alloc, path)? {
            Some(bytes) => Ok(Vec::from_slice(alloc, bytes.as_slice())?),
            None => Err(HostError::Missing),
        }
    }

    fn part(&mut self, _alloc: Global, _root: &str) -> HostResult<S>
        ensures cause { HasHostCause (host_faults self.old) (host_faults self.new) result }
        ensures ok { IfOk result (λ part. HandsOut (Some (host_parts self.old)) (part ∷ []) (Some (host_parts self.new))) }
        ensures err { OnErr result (Some (host_parts self.new) ≡ Some (host_parts self.old)) }
        ensures missing { OnMissing result ⊥ }
        ensures files { Some (host_files self.new) ≡ Some (host_files self.old) }
        ensures kept { Some (host_kept self.new) ≡ Some (host_kept self.old) }
        ensures room { KeepsRoom (HasHostRoom self.old) (HasHostRoom self.new) }
        ensures more { OnOk result (HasMoreRoom (HasHostRoom self.old) 1 (HasHostRoom self.new)) }
        ensures moment { Some (host_moment self.new) ≡ Some (host_moment self.old) }
        ensures fails { FailsJustWhere result (host_parts self.old ≡ []) }
    {
        if self.parts.is_empty() {
            return Err(fault(&mut self.faults));
        }
        make_room(&mut self.kept)?;
        Ok(take_first(&mut self.parts))
    }

    fn keep(&mut self, part: S) {
        put_last(&mut self.kept, part);
    }

    fn upstream(&mut self, _alloc: Global, _config: &Config) -> HostResult<U>
        ensures cause { HasHostCause (host_faults self.old) (host_faults self.new) result }
        ensures missing { OnMissing result ⊥ }
        ensures files { Some (host_files self.new) ≡ Some (host_files self.old) }
        ensures parts { Some (host_parts self.new) ≡ Some (host_parts self.old) }
        ensures kept { Some (host_kept self.new) ≡ Some (host_kept self.old) }
        ensures room { KeepsRoom (HasHostRoom self.old) (HasHostRoom self.new) }
        ensures moment { Some (host_moment self.new) ≡ Some (host_moment self.old) }
        ensures ok { IfOk result (λ up. host_upstreams self.old ≡ up ∷ host_upstreams self.new) }
        ensures fails { FailsJustWhere result (host_upstreams self.old ≡ []) }
    {
        if self.upstreams.is_empty() {
            return Err(fault(&mut self.faults));
        }
        Ok(take_first(&mut self.upstreams))
    }

    fn clock(&mut self) -> HandClock {
        self.clock
    }

    fn gate(&mut self) -> G {
        self.gate
    }
}
