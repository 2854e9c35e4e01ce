//! A member's answer to a request that came to it.
ghost use Rattle.std.specs.Prelude.{◌≡◌, ◌≤◌, ◌↔◌, ℕ};
ghost use Rattle.zot_member.specs.Asking.{Answers};
ghost use Rattle.zot_member.specs.Places.{place_by};
ghost use Rattle.zot_member.specs.declared.place.Place.TheVariants as places;
ghost use Rattle.zot_model.specs.Fits.{Fits};
ghost use Rattle.zot_model.specs.Valid.{IsValid};
ghost use Rattle.zot_outside.specs.Moments.{StaysAt};
ghost use Rattle.zot_pool.specs.Upstreams.{UpTold};
ghost use Rattle.zot_proxy.specs.Faults.{HasPeerCause};
ghost use Rattle.zot_proxy.specs.Peers.{outside};

use crate::asking::ask_owner;
use crate::member::Member;
use crate::place::Place;
use std::alloc::Global;
use zot_model::{Reply, Request};
use zot_outside::{Clock, Gate, Store};
use zot_pool::Upstream;
use zot_proxy::Peer;
use zot_rows::Rows;

impl Member {
    /// The reply to a valid request that came to this member. On a repository that it owns the row of its name answers, at the moment that the clock gives, and no peer is asked. On another one the owner is asked, once, the same request with its hop, and the reply is the one that it gave; PEER_FAULT where it failed, and NO_MEMORY where memory ran out. A request that was handed on already is HOP_REFUSED instead, exactly where another member owns the repository. The base route is answered by each member.
    pub fn answer<S: Store, U: Upstream, T: Clock, G: Gate, P: Peer<S, U, T, G>>(
        &self,
        alloc: Global,
        rows: &mut Rows<S>,
        peers: &mut P,
        scratch: &mut S,
        upstream: &mut U,
        clock: &mut T,
        gate: &G,
        request: &Request,
    ) -> Reply
        requires valid { IsValid request.now }
        requires peers { (owner : ℕ) → place_by self.now.config self.now.number request.now ≡ places.Foreign owner → P.has peers.old owner }
        ensures answers { Answers (place_by self.now.config self.now.number request.now) rows.old (T.moment clock.old) request.now result rows.new
            (λ member asked given. P.gives peers.old (outside scratch.old upstream.old clock.old) member asked given peers.new (outside scratch.new upstream.new clock.new))
            (HasPeerCause (P.faults peers.old) (P.faults peers.new))
            ((peers.new ≡ peers.old) × (scratch.new ≡ scratch.old) × (upstream.new ≡ upstream.old)) }
        ensures config { rows.new.config ≡ rows.old.config }
        ensures fits { Fits request.now result }
        ensures members { (number : ℕ) → P.has peers.new number ↔ P.has peers.old number }
        ensures scratch { S.faults scratch.old ≤ S.faults scratch.new }
        ensures upstream { U.faults upstream.old ≤ U.faults upstream.new }
        ensures maps { UpTold (U.told upstream.old) (U.told upstream.new) (λ old new. new.repos ≡ old.repos) }
        ensures clock { StaysAt (T.moment clock.old) (T.moment clock.new) }
    {
        match self.place(request) {
            Place::Foreign(owner) => {
                ask_owner(alloc, peers, scratch, upstream, clock, gate, owner, request)
            }
            Place::Base | Place::Own | Place::Refused => {
                self.answer_alone(alloc, rows, clock, request)
            }
        }
    }
}
