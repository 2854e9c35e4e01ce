//! Members in memory.
ghost use Rattle.zot_model.specs.Valid.{IsValid};

use crate::requests::received;
use std::alloc::AllocError;
use zot_cases::{Answer, cut, number};
use zot_fakes::{HandClock, SteadyStore};
use zot_model::{Reply, Request};
use zot_outside::OpenGate;
use zot_pool::MemoryUpstream;
use zot_proxy::{MemoryPeer, Peer};

/// The member that is asked.
const MEMBER: u32 = 7;

/// `NUMBERS ~ REPLIES ~ MESSAGE`: what members answer that give these replies and fail the asks of these numbers, where they are asked for the request of the message three times.
pub fn peer(answer: &mut Answer, given: &str) {
    let (numbers, more) = cut(given, " ~ ");
    let (replies, message) = cut(more, " ~ ");
    let message = answer.read(message);
    let Some(request) = received(answer.alloc(), message.as_slice()) else {
        return answer.fail("no request");
    };
    let Ok(mut peer) = peer_of(answer, numbers, replies) else {
        return answer.fail("out of memory");
    };
    for _ in 0..3 {
        ask(answer, &mut peer, &request);
    }
    for asked in peer.asked() {
        answer.confirm(asked.member == MEMBER, "another member");
        answer.confirm(asked.request.hop, "asked without the hop");
        answer.confirm(asked.request.call == request.call, "another call");
    }
    answer.confirm(peer.asked().len() == 3, "not all was kept");
}

/// Members that fail the asks of these numbers, and give these replies.
pub fn peer_of(answer: &Answer, numbers: &str, replies: &str) -> Result<MemoryPeer, AllocError> {
    let alloc = answer.alloc();
    let mut failing = Vec::new(alloc);
    for word in numbers.split(' ') {
        failing.push(number(word))?;
    }
    let mut given = Vec::new(alloc);
    for word in replies.split(' ') {
        given.push(reply_of(word))?;
    }
    Ok(MemoryPeer::new(alloc, given, failing))
}

// The reply of a word.
fn reply_of(word: &str) -> Reply {
    match word {
        "deleted" => Reply::Deleted,
        "unknown" => Reply::blob_unknown(),
        _ => Reply::Base,
    }
}

// Asks the member, and shows what it answers.
fn ask(answer: &mut Answer, peer: &mut MemoryPeer, request: &Request)
    requires { IsValid request.now }
{
    let alloc = answer.alloc();
    if request.name.is_none() {
        return answer.fail("no name");
    }
    let mut scratch = SteadyStore::new(alloc);
    let mut upstream = MemoryUpstream::empty();
    let mut clock = HandClock::new(0);
    let gate = OpenGate;
    let result = peer.ask(
        alloc,
        &mut scratch,
        &mut upstream,
        &mut clock,
        &gate,
        MEMBER,
        request,
    );
    answer.begin();
    answer.outcome(&result);
}
