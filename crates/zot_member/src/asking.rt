//! What a member answers by asking another one.
ghost use Rattle.std.specs.Prelude.{◌≡◌, ◌≤◌, ◌↔◌, ℕ, IsSome};
ghost use Rattle.zot_member.specs.Asking.{AsksOnce, reply_for};
ghost use Rattle.zot_model.specs.Fits.{Fits};
ghost use Rattle.zot_model.specs.Valid.{IsValid};
ghost use Rattle.zot_outside.specs.Moments.{StaysAt};
ghost use Rattle.zot_pool.specs.Upstreams.{UpTold};
ghost use Rattle.zot_proxy.specs.Faults.{HasPeerCause};
ghost use Rattle.zot_proxy.specs.Peers.{outside};

use std::alloc::Global;
use zot_model::{Reply, Request};
use zot_outside::{Clock, Gate, Store};
use zot_pool::Upstream;
use zot_proxy::{Peer, PeerError};

/// The reply to a valid request on a repository, for what its owner gives, which is asked once, the same request with its hop: the owner's reply, or PEER_FAULT where it failed, or NO_MEMORY where memory ran out.
pub(crate) fn ask_owner<S: Store, U: Upstream, T: Clock, G: Gate, P: Peer<S, U, T, G>>(
    alloc: Global,
    peers: &mut P,
    scratch: &mut S,
    upstream: &mut U,
    clock: &mut T,
    gate: &G,
    owner: u32,
    request: &Request,
) -> Reply
    requires valid { IsValid request.now }
    requires named { IsSome request.now.name }
    requires peers { P.has peers.old owner }
    ensures asks { AsksOnce owner request.now result
        (λ member asked given. P.gives peers.old (outside scratch.old upstream.old clock.old) member asked given peers.new (outside scratch.new upstream.new clock.new))
        (HasPeerCause (P.faults peers.old) (P.faults peers.new)) }
    ensures fits { Fits request.now result }
    ensures members { (number : ℕ) → P.has peers.new number ↔ P.has peers.old number }
    ensures scratch { S.faults scratch.old ≤ S.faults scratch.new }
    ensures upstream { U.faults upstream.old ≤ U.faults upstream.new }
    ensures maps { UpTold (U.told upstream.old) (U.told upstream.new) (λ old new. new.repos ≡ old.repos) }
    ensures clock { StaysAt (T.moment clock.old) (T.moment clock.new) }
{
    replied(peers.ask(alloc, scratch, upstream, clock, gate, owner, request))
}

// The reply for what an ask gave.
fn replied(given: Result<Reply, PeerError>) -> Reply
    ensures { result ≡ reply_for given }
{
    match given {
        Ok(reply) => reply,
        Err(PeerError::Failed) => Reply::peer_fault(),
        Err(PeerError::NoMemory) => Reply::no_memory(),
    }
}
