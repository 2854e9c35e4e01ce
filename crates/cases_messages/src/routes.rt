//! What messages ask.
use std::alloc::Global;
use zot_cases::Answer;
use zot_head::{Found, find_head, read_head};
use zot_model::Call;
use zot_route::{ParsedHead, Routed, route};

/// What a message asks, or how it is refused.
pub fn asked(answer: &mut Answer, message: &[u8]) {
    answer.show(&routed(answer.alloc(), message));
}

/// The methods that ask something of the rest of a message, in the order of their trial, and where the first is refused its
/// refusal, which is that of all others.
pub fn methods(answer: &mut Answer, rest: &[u8]) {
    let mut refused = None;
    for method in [
        "GET ", "HEAD ", "PUT ", "POST ", "PATCH ", "DELETE ", "get ", "BREW ",
    ] {
        let mut message = answer.read(method);
        answer.keep(message.extend_from_slice(rest), ());
        let routed = routed(answer.alloc(), message.as_slice());
        if let Some(Routed::Request(_)) = routed {
            answer.begin();
            answer.say(method.trim());
        } else if routed != refused {
            answer.begin();
            answer.show(&routed);
            refused = routed;
        }
    }
}

/// The media of a manifest that a message pushes.
pub fn media(answer: &mut Answer, message: &[u8]) {
    if let Some(Routed::Request(request)) = routed(answer.alloc(), message) {
        if let Call::PutManifest { media, .. } = request.call {
            answer.show(&media);
        }
    }
}

// What becomes of a message, or nothing where it has no head or memory runs out.
fn routed(alloc: Global, message: &[u8]) -> Option<Routed> {
    let Found::Head(size) = find_head(message) else {
        return None;
    };
    let (head, body) = message.split_at(size);
    routed_parts(alloc, head, body)
}

// What becomes of a message of this head and this body.
fn routed_parts(alloc: Global, head: &[u8], body: &[u8]) -> Option<Routed> {
    let Ok(head) = read_head(alloc, head) else {
        return None;
    };
    let Ok(body) = Vec::from_slice(alloc, body) else {
        return None;
    };
    match route(alloc, &ParsedHead::new(&head), body) {
        Ok(routed) => Some(routed),
        Err(_) => None,
    }
}
