//! The next message of a connection, as its bytes come.
ghost use Rattle.std.specs.Prelude.{◌≡◌, ◌≤◌, ◌↔◌, Err, IfErr, IfOk, IsTrue, length};
ghost use Rattle.zot_session.specs.Causes.{Causes};
ghost use Rattle.zot_session.specs.Messages.{IsRead};
ghost use Rattle.zot_session.specs.Receiving.{ReceiveEnds, Receives};
ghost use Rattle.zot_session.specs.Waiting.{piece};
ghost use Rattle.zot_session.specs.declared.end.End.TheVariants as ends;

use crate::blank::is_blank;
use crate::body::{Body, receive_body};
use crate::end::End;
use crate::heading::{Heading, receive_head};
use crate::inbox::Inbox;
use crate::sending::send_continue;
use std::alloc::Global;
use zot_head::{Framing, Head};
use zot_model::{BODY_LIMIT, Reply};
use zot_outside::{Failed, Sink, Source};

/// What came of a message.
#[derive(Drop)]
pub enum Received {
    /// It is whole, and its bytes were passed over.
    Whole(Head, Vec<u8>),
    /// It is refused so.
    Refused(Reply),
}

/// Receives the next message: takes pieces until it is whole or refused. A `100 Continue` is written where the head asks for one, before the body is read. Of what was passed over, no more is held after a whole message than it and one piece. An `Err` ends the connection.
pub fn receive<C: Source, K: Sink>(
    alloc: Global,
    inbox: &mut Inbox,
    source: &mut C,
    sink: &mut K,
) -> Result<Received, End>
    requires { length inbox.old.bytes ≤ piece }
    ensures receives { IfOk result (λ received. Receives received inbox.old inbox.new (C.left source.old) (C.left source.new) (K.held sink.old) (K.held sink.new)) }
    ensures ends { IfErr result (λ end. ReceiveEnds end inbox.old inbox.new (C.left source.old) (C.left source.new) (K.held sink.old) (K.held sink.new)) }
    ensures causes { Causes (result ≡ Err ends.ReadFault) (result ≡ Err ends.WriteFault) (C.faults source.old) (C.faults source.new) (K.faults sink.old) (K.faults sink.new) }
{
    let begun = inbox.passed();
    match receive_head(alloc, inbox, source) {
        Err(cut) => Err(cut.end(is_blank(inbox.waiting()), inbox.taken() - begun)),
        Ok(Heading::Refused(reply)) => Ok(Received::Refused(reply)),
        Ok(Heading::Whole(head)) => {
            if !is_read(head.framing) {
                return Ok(Received::Refused(Reply::size_invalid()));
            }
            match send_continue(sink, &head) {
                Ok(()) => {}
                Err(Failed) => return Err(End::WriteFault),
            }
            match receive_body(alloc, inbox, source, head.framing) {
                Err(cut) => Err(cut.end(false, inbox.taken() - begun)),
                Ok(Body::Whole(body)) => Ok(Received::Whole(head, body)),
                Ok(Body::Refused(reply)) => Ok(Received::Refused(reply)),
            }
        }
    }
}

// Whether a body that is framed so is read.
#[tactic(auto, unfolding(zot_model::specs::Valid::body_limit))]
fn is_read(framing: Framing) -> bool
    ensures { IsTrue result ↔ IsRead framing }
{
    match framing {
        Framing::Length(size) => size <= BODY_LIMIT,
        Framing::None | Framing::Chunked => true,
    }
}
