//! The other members.
ghost use Rattle.std.specs.Prelude.{◌≡◌, ◌≤◌, ◌↔◌, ℕ, true, IfOk, IsSome};
ghost use Rattle.zot_model.specs.Fits.{Fits};
ghost use Rattle.zot_model.specs.Valid.{IsValid};
ghost use Rattle.zot_outside.specs.Moments.{StaysAt};
ghost use Rattle.zot_pool.specs.Upstreams.{UpTold};
ghost use Rattle.zot_proxy.specs.Faults.{HasPeerCause};
ghost use Rattle.zot_proxy.specs.Peers.{outside};
ghost use Rattle.zot_spell.specs.Wire.{with_hop};

use crate::peer_error::PeerError;
use std::alloc::Global;
use zot_model::{Reply, Request};
use zot_outside::{Clock, Gate, Store};
use zot_pool::Upstream;

/// The other members by their numbers, each of which answers what is asked of it with the scratch store, the upstream, the clock and the gate of the one that asks.
pub trait Peer<S: Store, U: Upstream, T: Clock, G: Gate> {
    ghost use Rattle.std.specs.Prelude.{ℕ, Result};
    ghost use Rattle.zot_model.specs.declared.reply.Reply.{Reply};
    ghost use Rattle.zot_model.specs.declared.request.Request.{Request};
    ghost use Rattle.zot_proxy.specs.Peers.{Outside};
    ghost use Rattle.zot_proxy.specs.declared.peer_error.PeerError.{PeerError};

    // From the old state and what is lent, a member may answer a request so, and leads to the new state and leaves that.
    ghost gives: { Self → Outside S U T → ℕ → Request → Result Reply PeerError → Self → Outside S U T → Type 0 };

    // The members that can be asked.
    ghost has: { Self → ℕ → Type 0 };

    // How many asks have failed. The count stops at 2^64 - 1.
    ghost faults: { Self → ℕ };

    /// Asks a member for a reply to a valid request on a repository. The member is asked the same with its hop, whether the request has it or not, so that nothing need be copied to set it.
    fn ask(
        &mut self,
        alloc: Global,
        scratch: &mut S,
        upstream: &mut U,
        clock: &mut T,
        gate: &G,
        member: u32,
        request: &Request,
    ) -> Result<Reply, PeerError>
        requires member { has self.old member }
        requires valid { IsValid request.now }
        requires named { IsSome request.now.name }
        ensures cause { HasPeerCause (faults self.old) (faults self.new) result }
        ensures meets { gives self.old (outside scratch.old upstream.old clock.old) member (with_hop request.now true) result self.new (outside scratch.new upstream.new clock.new) }
        ensures fits { IfOk result (Fits request.now) }
        ensures members { (number : ℕ) → has self.new number ↔ has self.old number }

        // The counts of what was lent never fall. A told moment stays, and so do the maps of an upstream that tells them.
        ensures scratch { S.faults scratch.old ≤ S.faults scratch.new }
        ensures upstream { U.faults upstream.old ≤ U.faults upstream.new }
        ensures maps { UpTold (U.told upstream.old) (U.told upstream.new) (λ old new. new.repos ≡ old.repos) }
        ensures clock { StaysAt (T.moment clock.old) (T.moment clock.new) };
}
