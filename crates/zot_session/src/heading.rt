//! The head of the next message, as its bytes come.
ghost use Rattle.std.specs.Prelude.{◌≡◌, ◌≤◌, Err, IfErr, IfOk, length};
ghost use Rattle.zot_head.specs.Limits.{head_limit};
ghost use Rattle.zot_head.specs.Lines.{Ends, extent, head_end};
ghost use Rattle.zot_session.specs.Causes.{Counts};
ghost use Rattle.zot_session.specs.Receiving.{HeadCut, HeadIs, Heads};
ghost use Rattle.zot_session.specs.Waiting.{piece};
ghost use Rattle.zot_session.specs.declared.cut.Cut.TheVariants as cuts;

use crate::cut::Cut;
use crate::inbox::Inbox;
use std::alloc::{AllocError, Global};
use zot_head::{Found, Head, HeadError, find_head, read_head};
use zot_model::Reply;
use zot_outside::Source;

/// What came of the head of a message.
#[derive(Drop)]
pub enum Heading {
    /// It is whole, and its bytes were passed over.
    Whole(Head),
    /// The message is refused so.
    Refused(Reply),
}

/// Receives the head of the next message: takes pieces until it is whole or refused. What was passed over before is let go where more than a piece is held. An `Err` ends the connection.
pub fn receive_head<C: Source>(
    alloc: Global,
    inbox: &mut Inbox,
    source: &mut C,
) -> Result<Heading, Cut>
    requires { length inbox.old.bytes ≤ piece }
    ensures heads { IfOk result (λ heading. Heads heading inbox.old inbox.new (C.left source.old) (C.left source.new)) }
    ensures cut { IfErr result (λ cut. HeadCut cut inbox.old inbox.new (C.left source.old) (C.left source.new)) }
    ensures faults { Counts (result ≡ Err cuts.Fault) (C.faults source.old) (C.faults source.new) }
{
    inbox.settle();
    'pieces: loop {
        match find_head(inbox.waiting()) {
            Found::Head(n) => match head_of(alloc, inbox, n) {
                Ok(heading) => return Ok(heading),
                Err(_) => return Err(Cut::NoMemory),
            },
            Found::TooLong => return Ok(Heading::Refused(Reply::head_too_long())),
            Found::More => {}
        }
        match inbox.take(source) {
            Ok(()) => {}
            Err(cut) => return Err(cut),
        }
    }
}

// The head of the first n bytes that wait, which are passed over where it is one. It fails only where memory does.
fn head_of(alloc: Global, inbox: &mut Inbox, n: usize) -> Result<Heading, AllocError>
    requires { extent head_end head_limit inbox.old.bytes ≡ Ends n }
    ensures { HeadIs result inbox.old inbox.new }
{
    match read_head(alloc, &inbox.waiting()[..n]) {
        Ok(head) => {
            inbox.pass(n);
            Ok(Heading::Whole(head))
        }
        Err(HeadError::Bad) => Ok(Heading::Refused(Reply::head_invalid())),
        Err(HeadError::TooLong) => Ok(Heading::Refused(Reply::head_too_long())),
        Err(HeadError::NoMemory) => Err(AllocError),
    }
}
