//! Replies written to a sink.
ghost use Rattle.std.specs.Prelude.{◌≡◌, ◌++◌, Err, OnErr, OnOk};
ghost use Rattle.std.specs.Option.{option_copied};
ghost use Rattle.zot_outside.specs.Faults.{HasCause};
ghost use Rattle.zot_outside.specs.Streams.{Appends};
ghost use Rattle.zot_session.specs.Causes.{Counts};
ghost use Rattle.zot_session.specs.Messages.{continue_of};
ghost use Rattle.zot_session.specs.Sending.{Sends, WritesPart};
ghost use Rattle.zot_session.specs.declared.send_error.SendError.TheVariants as errors;
ghost use Rattle.zot_spell.specs.Spelling.{MayHave, reply_bytes};

use crate::send_error::SendError;
use std::alloc::Global;
use zot_head::Head;
use zot_model::{Reply, Request};
use zot_outside::{Failed, Sink};
use zot_spell::{held_body, spell_front};

/// Writes a reply to a request, or to a message that asks for nothing. `head` says that the method is HEAD, `close` that the connection closes after the reply. The bytes of a blob, a manifest or an index aren't copied.
pub fn send<K: Sink>(
    alloc: Global,
    sink: &mut K,
    request: Option<&Request>,
    reply: &Reply,
    head: bool,
    close: bool,
) -> Result<(), SendError>
    requires { MayHave (option_copied request) reply.now }
    ensures sends { Sends result (K.held sink.old) (reply_bytes (option_copied request.entry) reply.now head close) (K.held sink.new) }
    ensures faults { Counts (result ≡ Err errors.Fault) (K.faults sink.old) (K.faults sink.new) }
{
    match spell_front(alloc, request, reply, head, close) {
        Ok(front) => match write_both(sink, front.as_slice(), held_body(head, reply)) {
            Ok(()) => Ok(()),
            Err(Failed) => Err(SendError::Fault),
        },
        Err(_) => Err(SendError::NoMemory),
    }
}

// Writes all bytes of two texts, one after the other, unless the sink fails. After an `Err` a part of them was written.
fn write_both<K: Sink>(sink: &mut K, first: &[u8], second: &[u8]) -> Result<(), Failed>
    ensures cause { HasCause (K.faults sink.old) (K.faults sink.new) result }
    ensures ok { OnOk result (Appends (K.held sink.old) (first.now ++ second.now) (K.held sink.new)) }
    ensures err { OnErr result (WritesPart (K.held sink.old) (first.now ++ second.now) (K.held sink.new)) }
{
    match write_all(sink, first) {
        Ok(()) => write_all(sink, second),
        Err(Failed) => Err(Failed),
    }
}

/// Writes a `100 Continue` where the head asks for one. Takes no memory. After an `Err` a part of it was written.
#[tactic(auto, unfolding(crate::specs::Messages::continue_text))]
pub fn send_continue<K: Sink>(sink: &mut K, head: &Head) -> Result<(), Failed>
    ensures cause { HasCause (K.faults sink.old) (K.faults sink.new) result }
    ensures ok { OnOk result (Appends (K.held sink.old) (continue_of head.now) (K.held sink.new)) }
    ensures err { OnErr result (WritesPart (K.held sink.old) (continue_of head.now) (K.held sink.new)) }
{
    if head.expects {
        write_all(sink, b"HTTP/1.1 100 Continue\r\n\r\n")
    } else {
        Ok(())
    }
}

/// Writes all bytes, unless the sink fails. After an `Err` a part of them was written.
pub fn write_all<K: Sink>(sink: &mut K, bytes: &[u8]) -> Result<(), Failed>
    ensures cause { HasCause (K.faults sink.old) (K.faults sink.new) result }
    ensures ok { OnOk result (Appends (K.held sink.old) bytes.now (K.held sink.new)) }
    ensures err { OnErr result (WritesPart (K.held sink.old) bytes.now (K.held sink.new)) }
{
    let mut rest = bytes;
    while !rest.is_empty() {
        match sink.write(rest) {
            Ok(n) => rest = &rest[n..],
            Err(Failed) => return Err(Failed),
        }
    }
    Ok(())
}
