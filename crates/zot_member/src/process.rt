//! Requests at any member of one process.
ghost use Rattle.std.specs.Prelude.{◌≡◌, ◌<◌, true};
ghost use Rattle.zot_member.specs.Neighbours.{HandsOn, Makes};
ghost use Rattle.zot_member.specs.Places.{place_by};
ghost use Rattle.zot_member.specs.declared.place.Place.TheVariants as places;
ghost use Rattle.zot_model.specs.Fits.{Fits};
ghost use Rattle.zot_model.specs.Valid.{IsValid};
ghost use Rattle.zot_outside.specs.Moments.{StaysAt};
ghost use Rattle.zot_spell.specs.Wire.{with_hop};

use crate::asking::ask_owner;
use crate::member::Member;
use crate::neighbours::Neighbours;
use crate::place::Place;
use std::alloc::Global;
use zot_model::{Reply, Request};
use zot_outside::{Clock, Gate, Store};
use zot_pool::Upstream;
use zot_rows::Rows;

/// The reply to a valid request that came to the member with this number, of those of one process over the rows of all of them. The row of the repository's name answers it, whichever member it came to. A reply that comes from another member is equal to its row's answer up to its spelling, or it is NO_MEMORY, and then the row may have answered. The base route and HOP_REFUSED change nothing.
pub fn answer_at<S: Store, U: Upstream, T: Clock, G: Gate>(
    alloc: Global,
    rows: &mut Rows<S>,
    scratch: &mut S,
    upstream: &mut U,
    clock: &mut T,
    gate: &G,
    member: u32,
    request: &Request,
) -> Reply
    requires valid { IsValid request.now }
    requires member { member < rows.old.config.members }
    ensures makes { Makes rows.old (T.moment clock.old) member request.now result rows.new }
    ensures config { rows.new.config ≡ rows.old.config }
    ensures fits { Fits request.now result }
    ensures scratch { scratch.new ≡ scratch.old }
    ensures upstream { upstream.new ≡ upstream.old }
    ensures clock { StaysAt (T.moment clock.old) (T.moment clock.new) }
{
    let asked = Member::new(rows.config(), member);
    match asked.place(request) {
        Place::Foreign(owner) => ask_among(
            alloc, rows, scratch, upstream, clock, gate, owner, request,
        ),
        Place::Base | Place::Own | Place::Refused => {
            asked.answer_alone(alloc, rows, clock, request)
        }
    }
}

// The reply for what the owner of a repository gives, of the members of one process.
fn ask_among<S: Store, U: Upstream, T: Clock, G: Gate>(
    alloc: Global,
    rows: &mut Rows<S>,
    scratch: &mut S,
    upstream: &mut U,
    clock: &mut T,
    gate: &G,
    owner: u32,
    request: &Request,
) -> Reply
    requires valid { IsValid request.now }
    requires own { place_by rows.old.config owner (with_hop request.now true) ≡ places.Own }
    requires within { owner < rows.old.config.members }
    ensures hands_on { HandsOn rows.old (T.moment clock.old) request.now result rows.new }
    ensures config { rows.new.config ≡ rows.old.config }
    ensures fits { Fits request.now result }
    ensures scratch { scratch.new ≡ scratch.old }
    ensures upstream { upstream.new ≡ upstream.old }
    ensures clock { StaysAt (T.moment clock.old) (T.moment clock.new) }
{
    let mut peers = Neighbours { rows };
    peers.reply_of(alloc, scratch, upstream, clock, gate, owner, request)
}

impl<S: Store> Neighbours<'_, S> {
    // The reply for what the owner of a repository gives.
    fn reply_of<U: Upstream, T: Clock, G: Gate>(
        &mut self,
        alloc: Global,
        scratch: &mut S,
        upstream: &mut U,
        clock: &mut T,
        gate: &G,
        owner: u32,
        request: &Request,
    ) -> Reply
        requires valid { IsValid request.now }
        requires own { place_by self.old.rows.now.config owner (with_hop request.now true) ≡ places.Own }
        requires within { owner < self.old.rows.now.config.members }
        ensures same_rows { self.new.rows.ghost_name ≡ self.old.rows.ghost_name }
        ensures hands_on { HandsOn self.old.rows.now (T.moment clock.old) request.now result self.new.rows.now }
        ensures config { self.new.rows.now.config ≡ self.old.rows.now.config }
        ensures fits { Fits request.now result }
        ensures scratch { scratch.new ≡ scratch.old }
        ensures upstream { upstream.new ≡ upstream.old }
        ensures clock { StaysAt (T.moment clock.old) (T.moment clock.new) }
    {
        ask_owner(alloc, self, scratch, upstream, clock, gate, owner, request)
    }
}
