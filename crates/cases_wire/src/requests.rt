//! Requests from one member to another.
ghost use Rattle.std.specs.Prelude.{IfSome};
ghost use Rattle.zot_model.specs.Valid.{IsValid};

use std::alloc::Global;
use zot_cases::Answer;
use zot_delivery::carry;
use zot_head::{Found, find_head, read_head};
use zot_model::{BODY_LIMIT, Request};
use zot_proxy::forwarded;
use zot_route::{ParsedHead, Routed, route};
use zot_spell::{body_of, head_and_body, spell_request, spell_request_head};

/// The request of a message. It is spelled as the message, and handed on to another member.
pub fn request(answer: &mut Answer, given: &str) {
    let message = answer.read(given);
    let Some(request) = received(answer.alloc(), message.as_slice()) else {
        return answer.fail("no request");
    };
    spell(answer, &request, message.as_slice());
    hand_on(answer, &request);
    answer.show(&request);
}

/// Where a connection finds the end of a request's head, which has no body. It is handed on to another member.
pub fn long(answer: &mut Answer, given: &str) {
    let message = answer.read(given);
    let Some(request) = asked(answer.alloc(), message.as_slice(), b"") else {
        return answer.fail("no request");
    };
    hand_on(answer, &request);
    answer.show(&find_head(message.as_slice()));
}

/// The request of a message.
pub fn received(alloc: Global, message: &[u8]) -> Option<Request>
    ensures { IfSome result IsValid }
{
    let Found::Head(size) = find_head(message) else {
        return None;
    };
    let (head, body) = message.split_at(size);
    asked(alloc, head, body)
}

// The request that a head and a body ask.
#[tactic(auto, unfolding(zot_model::specs::Valid::body_limit))]
fn asked(alloc: Global, head: &[u8], body: &[u8]) -> Option<Request>
    ensures { IfSome result IsValid }
{
    if body.len() as u64 > BODY_LIMIT {
        return None;
    }
    let Ok(head) = read_head(alloc, head) else {
        return None;
    };
    let Ok(body) = Vec::from_slice(alloc, body) else {
        return None;
    };
    match route(alloc, &ParsedHead::new(&head), body) {
        Ok(Routed::Request(request)) => Some(request),
        _ => None,
    }
}

// The request is spelled as this message, and so are its head and its body apart.
fn spell(answer: &mut Answer, request: &Request, message: &[u8]) {
    let alloc = answer.alloc();
    let Ok(bytes) = spell_request(alloc, request) else {
        return answer.fail("out of memory");
    };
    answer.confirm(bytes.as_slice() == message, "spelled otherwise");
    let (head, body) = head_and_body(request, bytes.as_slice());
    answer.confirm(body == body_of(request), "another body");
    let alone = spell_request_head(alloc, request, request.hop, body.len() as u64);
    let alone = answer.keep(alone, Vec::new(alloc));
    answer.confirm(alone.as_slice() == head, "another head");
}

// Another member reads the request, carried with its hop or without it, and of the bytes that are sent to it.
fn hand_on(answer: &mut Answer, request: &Request)
    requires { IsValid request.now }
{
    for hop in [true, false] {
        let other = carry(answer.alloc(), request, hop).ok();
        compare(answer, request, other, hop);
    }
    let other = read_forwarded(answer.alloc(), request);
    compare(answer, request, other, true);
}

// The request that is read of the bytes by which this one is handed on.
fn read_forwarded(alloc: Global, request: &Request) -> Option<Request> {
    let Ok(wire) = forwarded(alloc, request) else {
        return None;
    };
    asked(alloc, wire.head.as_slice(), wire.body)
}

// Another member read the same request, with this hop.
fn compare(answer: &mut Answer, request: &Request, other: Option<Request>, hop: bool) {
    let Some(other) = other else {
        return answer.fail("not read");
    };
    answer.confirm(other.name == request.name, "read with another name");
    answer.confirm(other.call == request.call, "read as another call");
    answer.confirm(other.hop == hop, "read with another hop");
}
