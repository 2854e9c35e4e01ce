//! The members of one process as each other's peers.
ghost use Rattle.std.specs.Prelude.{◌≡◌, ◌<◌, IfOk, true};
ghost use Rattle.zot_member.specs.Neighbours.{GivesAmong};
ghost use Rattle.zot_model.specs.Fits.{Fits};
ghost use Rattle.zot_model.specs.Valid.{IsValid};
ghost use Rattle.zot_outside.specs.Moments.{StaysAt};

use crate::member::Member;
use std::alloc::Global;
use zot_delivery::carry;
use zot_model::{Reply, Request};
use zot_outside::{Clock, Gate, Store};
use zot_pool::Upstream;
use zot_proxy::{Peer, PeerError, carry_back};
use zot_rows::Rows;

/// The members of one process, over the rows of all of them. One is asked with the bytes that would go to it, and its reply is read of those that would come back; so an ask fails only where memory does.
#[derive(Drop)]
pub(crate) struct Neighbours<'a, S: Store> {
    pub(crate) rows: &'a mut Rows<S>,
}

impl<S: Store, U: Upstream, T: Clock, G: Gate> Peer<S, U, T, G> for Neighbours<'_, S> {
    ghost use Rattle.std.specs.Prelude.{◌≡◌, ◌<◌};
    ghost use Rattle.zot_member.specs.Neighbours.{GivesAmong};

    ghost gives = { λ old before member request result new after. GivesAmong old.rows.now (T.moment before.clock) member request result new.rows.now
        × (new.rows.now.config ≡ old.rows.now.config) × (new.rows.ghost_name ≡ old.rows.ghost_name)
        × (after.scratch ≡ before.scratch) × (after.upstream ≡ before.upstream) };

    ghost has = { λ peers number. number < peers.rows.now.config.members };

    ghost faults = { λ _. 0 };

    fn ask(
        &mut self,
        alloc: Global,
        _scratch: &mut S,
        _upstream: &mut U,
        clock: &mut T,
        _gate: &G,
        member: u32,
        request: &Request,
    ) -> Result<Reply, PeerError> {
        let handed = carry(alloc, request, true)?;
        self.reply_back(alloc, clock, member, &handed)
    }
}

impl<S: Store> Neighbours<'_, S> {
    // The reply of a member to a request that was handed on to it, as it is read by the one that asked.
    fn reply_back<T: Clock>(
        &mut self,
        alloc: Global,
        clock: &mut T,
        member: u32,
        handed: &Request,
    ) -> Result<Reply, PeerError>
        requires member { member < self.old.rows.now.config.members }
        requires valid { IsValid handed.now }
        requires hop { handed.now.hop ≡ true }
        ensures gives { GivesAmong self.old.rows.now (T.moment clock.old) member handed.now result self.new.rows.now }
        ensures config { self.new.rows.now.config ≡ self.old.rows.now.config }
        ensures same_rows { self.new.rows.ghost_name ≡ self.old.rows.ghost_name }
        ensures fits { IfOk result (Fits handed.now) }
        ensures clock { StaysAt (T.moment clock.old) (T.moment clock.new) }
    {
        let asked = Member::new(self.rows.config(), member);
        let reply = asked.answer_alone(alloc, self.rows, clock, handed);
        let read = carry_back(alloc, handed, &reply)?;
        Ok(read)
    }
}
