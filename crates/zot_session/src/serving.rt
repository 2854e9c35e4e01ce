//! A connection served, message by message.
ghost use Rattle.std.specs.Prelude.{◌≡◌, ◌≤◌, Err, IfNone, IfSome, Some, length};
ghost use Rattle.zot_model.specs.Fits.{Declines};
ghost use Rattle.zot_model.specs.Valid.{body_limit};
ghost use Rattle.zot_session.specs.Causes.{Causes, Counts};
ghost use Rattle.zot_session.specs.Ends.{EndsAs, HasFailed};
ghost use Rattle.zot_session.specs.Exchanges.{Conducts};
ghost use Rattle.zot_session.specs.Session.{Served};
ghost use Rattle.zot_session.specs.Turn.{Exchanged, GoesOn, RefusalEnds, Responds, Stops, reply_status};
ghost use Rattle.zot_session.specs.Waiting.{piece};
ghost use Rattle.zot_session.specs.declared.end.End.TheVariants as ends;
ghost use Rattle.zot_session.specs.declared.send_error.SendError.TheVariants as errors;

use crate::answers::Answers;
use crate::end::End;
use crate::inbox::Inbox;
use crate::receiving::{Received, receive};
use crate::send_error::SendError;
use crate::sending::send;
use std::alloc::Global;
use zot_head::Head;
use zot_model::Reply;
use zot_outside::{Sink, Source};
use zot_route::{ParsedHead, Routed, route};

// One turn: receives the next message and answers it, or ends the connection. It lets go of what was answered before, where more than a piece is held.
fn turn<A: Answers, C: Source, K: Sink>(
    alloc: Global,
    inbox: &mut Inbox,
    answers: &mut A,
    source: &mut C,
    sink: &mut K,
) -> Option<End>
    requires { length inbox.old.bytes ≤ piece }
    ensures on { IfNone result (GoesOn A.answers answers.old answers.new (C.left source.old) (C.left source.new) (K.held sink.old) (K.held sink.new) inbox.old inbox.new) }
    ensures ends { IfSome result (λ end. Stops A.answers end answers.old answers.new (C.left source.old) (C.left source.new) (K.held sink.old) (K.held sink.new) inbox.old inbox.new) }
    ensures causes { Causes (result ≡ Some ends.ReadFault) (result ≡ Some ends.WriteFault) (C.faults source.old) (C.faults source.new) (K.faults sink.old) (K.faults sink.new) }
{
    match receive(alloc, inbox, source, sink) {
        Err(end) => Some(end),
        Ok(Received::Refused(reply)) => Some(refuse(alloc, sink, &reply)),
        Ok(Received::Whole(head, body)) => respond(alloc, answers, sink, &head, body),
    }
}

// Answers a whole message, and ends the connection where the message asks for it, or where the reply isn't written whole.
fn respond<A: Answers, K: Sink>(
    alloc: Global,
    answers: &mut A,
    sink: &mut K,
    head: &Head,
    body: Vec<u8>,
) -> Option<End>
    requires { length body.items ≤ body_limit }
    ensures responds { Responds A.answers result answers.old answers.new (record { head = head.now; body = body.items }) (K.held sink.old) (K.held sink.new) }
    ensures faults { Counts (result ≡ Some ends.WriteFault) (K.faults sink.old) (K.faults sink.new) }
{
    match exchange(alloc, answers, sink, head, body) {
        Ok(()) => { if head.closes { Some(End::Closed) } else { None } }
        Err(error) => Some(error.end()),
    }
}

// One exchange: routes a whole message, has its request answered, and writes the reply.
fn exchange<A: Answers, K: Sink>(
    alloc: Global,
    answers: &mut A,
    sink: &mut K,
    head: &Head,
    body: Vec<u8>,
) -> Result<(), SendError>
    requires { length body.items ≤ body_limit }
    ensures exchanged { Exchanged A.answers result answers.old answers.new (record { head = head.now; body = body.items }) (K.held sink.old) (K.held sink.new) }
    ensures faults { Counts (result ≡ Err errors.Fault) (K.faults sink.old) (K.faults sink.new) }
{
    let parsed = ParsedHead::new(head);
    match route(alloc, &parsed, body) {
        Err(_) => Err(SendError::NoMemory),
        Ok(Routed::Request(request)) => {
            let reply = answers.answer(alloc, &request);
            send(
                alloc,
                sink,
                Some(&request),
                &reply,
                parsed.hides_body(),
                head.closes,
            )
        }
        Ok(Routed::Refused(reply)) => {
            send(alloc, sink, None, &reply, parsed.hides_body(), head.closes)
        }
    }
}

// Writes the refusal that closes the connection.
fn refuse<K: Sink>(alloc: Global, sink: &mut K, reply: &Reply) -> End
    requires { Declines reply.now }
    ensures ends { RefusalEnds result reply.now (K.held sink.old) (K.held sink.new) }
    ensures faults { Counts (result ≡ ends.WriteFault) (K.faults sink.old) (K.faults sink.new) }
{
    match send(alloc, sink, None, reply, false, true) {
        Ok(()) => End::Refused(reply_status(reply)),
        Err(error) => error.end(),
    }
}

// The status of a refusal.
fn reply_status(reply: &Reply) -> u16
    ensures { result ≡ reply_status reply.now }
{
    match reply {
        Reply::Refused { status, .. } => *status,
        _ => 0,
    }
}

/// Serves a connection: takes its bytes from the source, answers each request once and in order, and writes the replies to the sink. It ends where the input ends, a request asks to close, a message is refused for its head or the form of its body, the connection has brought all that it may, or the source, the sink or memory fails. It holds the message at hand, and of the bytes taken besides at most one piece of 65,536.
pub fn session<A: Answers, C: Source, K: Sink>(
    alloc: Global,
    answers: &mut A,
    source: &mut C,
    sink: &mut K,
) -> End
    ensures served { Served (λ exchanges. Conducts A.answers answers.old exchanges answers.new) result (C.left source.old) (C.left source.new) (K.held sink.old) (K.held sink.new) }
    ensures of_bytes { ¬ HasFailed result → IfSome (C.left source.old) (λ bytes. EndsAs bytes result) }
    ensures causes { Causes (result ≡ ends.ReadFault) (result ≡ ends.WriteFault) (C.faults source.old) (C.faults source.new) (K.faults sink.old) (K.faults sink.new) }
{
    let Ok(mut inbox) = Inbox::new(alloc) else {
        return End::NoMemory;
    };
    'turns: loop {
        if let Some(end) = turn(alloc, &mut inbox, answers, source, sink) {
            return end;
        }
    }
}
