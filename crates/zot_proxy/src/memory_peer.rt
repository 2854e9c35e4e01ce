//! Members in memory.
ghost use Rattle.std.specs.Prelude.{◌≡◌, [], true, IfOk, OnErr, OnOk};
ghost use Rattle.zot_proxy.specs.Peers.{IsNext, is_listed, with_ask};
ghost use Rattle.zot_spell.specs.Wire.{with_hop};

use crate::asked::Asked;
use crate::peer::Peer;
use crate::peer_error::PeerError;
use std::alloc::{AllocError, Global};
use std::collections::VecDeque;
use std::marker::Model;
use zot_model::{Reply, Request, fits};
use zot_outside::{Clock, Gate, Store};
use zot_pool::Upstream;

/// Members in memory, of every number, that give replies in order and keep what they were asked. They leave what is lent to them, and an ask for which memory ran out changes nothing.
#[derive(Drop)]
pub struct MemoryPeer {
    failing: Vec<u64>,
    replies: VecDeque<Reply>,
    asked: Vec<Asked>,
}

impl Model for MemoryPeer {
    ghost use Rattle.zot_proxy.specs.Peers.{Script};

    ghost Value = { Script };

    ghost view = { λ p. record { failing = p.failing.items; left = p.replies.items; asked = p.asked.items } };
}

impl MemoryPeer {
    /// Members that give these replies, one an ask. The asks whose numbers, from 1, are listed fail, and so does one behind the last reply, or that the next reply doesn't fit. A reply that wasn't given stays the next one. Takes no memory.
    pub fn new(alloc: Global, replies: Vec<Reply>, failing: Vec<u64>) -> Self
        ensures { result ≡ record { failing = failing.items; left = replies.items; asked = [] } }
    {
        MemoryPeer {
            failing,
            replies: VecDeque::from_vec(replies),
            asked: Vec::new(alloc),
        }
    }

    /// What was asked, in order, and what came of it.
    pub fn asked(&self) -> &[Asked]
        ensures { result.now ≡ self.now.asked }
    {
        self.asked.as_slice()
    }

    // Whether the next ask is to fail.
    fn is_listed(&self) -> bool
        ensures { result ≡ is_listed self.now }
    {
        let number = (self.asked.len() as u64).saturating_add(1);
        self.failing.contains(&number)
    }

    // A copy of the reply that the next ask gives to a request, or none where it is to fail.
    fn next_reply(&self, alloc: Global, request: &Request) -> Result<Option<Reply>, AllocError>
        ensures { IfOk result (IsNext self.now request.now) }
    {
        if self.is_listed() {
            return Ok(None);
        }
        match self.replies.front() {
            Some(reply) if fits(request, reply) => Ok(Some(reply.copy(alloc)?)),
            _ => Ok(None),
        }
    }

    // Keeps an ask for a request with its hop, and what came of it.
    fn keep(
        &mut self,
        alloc: Global,
        member: u32,
        request: &Request,
        outcome: Result<Reply, PeerError>,
    ) -> Result<(), AllocError>
        ensures ok { OnOk result (self.new ≡ record self.old { asked = with_ask self.old.asked member (with_hop request.now true) outcome }) }
        ensures err { OnErr result (self.new ≡ self.old) }
    {
        let mut request = request.copy(alloc)?;
        request.hop = true;
        let ask = Asked {
            member,
            request,
            result: outcome,
        };
        self.asked.push(ask)?;
        Ok(())
    }
}

impl<S: Store, U: Upstream, T: Clock, G: Gate> Peer<S, U, T, G> for MemoryPeer {
    ghost use Rattle.std.specs.Prelude.{⊤};
    ghost use Rattle.zot_proxy.specs.Peers.{Gives, failures};

    ghost gives = { Gives };

    ghost has = { λ _ _. ⊤ };

    ghost faults = { λ p. failures p.asked };

    fn ask(
        &mut self,
        alloc: Global,
        _scratch: &mut S,
        _upstream: &mut U,
        _clock: &mut T,
        _gate: &G,
        member: u32,
        request: &Request,
    ) -> Result<Reply, PeerError> {
        let Some(copy) = self.next_reply(alloc, request)? else {
            self.keep(alloc, member, request, Err(PeerError::Failed))?;
            return Err(PeerError::Failed);
        };
        self.keep(alloc, member, request, Ok(copy))?;
        match self.replies.pop_front() {
            Some(reply) => Ok(reply),
            None => unreachable!(),
        }
    }
}
