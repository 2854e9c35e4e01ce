//! Requests as texts of cases.
use std::alloc::Global;
use zot_cases::Answer;
use zot_head::{Found, find_head, read_head};
use zot_model::Request;
use zot_route::{ParsedHead, Routed, route};

/// The request of a message.
pub fn received(alloc: Global, message: &[u8]) -> Option<Request> {
    let Found::Head(size) = find_head(message) else {
        return None;
    };
    let (head, body) = message.split_at(size);
    let head = read_head(alloc, head).ok()?;
    let body = Vec::from_slice(alloc, body).ok()?;
    match route(alloc, &ParsedHead::new(&head), body) {
        Ok(Routed::Request(request)) => Some(request),
        _ => None,
    }
}

/// The requests of messages with `; ` between two. Each has to be one on a repository.
pub fn requests_of(answer: &mut Answer, messages: &str) -> Vec<Request> {
    let mut requests = Vec::new(answer.alloc());
    for text in messages.split("; ") {
        let message = answer.read(text);
        match received(answer.alloc(), message.as_slice()) {
            Some(request) => answer.keep(requests.push(request), ()),
            None => answer.fail("no request; "),
        }
    }
    requests
}
