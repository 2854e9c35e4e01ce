//! The body of the message at hand, as its bytes come.
ghost use Rattle.std.specs.Prelude.{◌≡◌, ◌≤◌, Err, IfErr, IfOk, length, min};
ghost use Rattle.zot_head.specs.declared.framing.Framing.TheVariants as framings;
ghost use Rattle.zot_model.specs.Valid.{body_limit};
ghost use Rattle.zot_session.specs.Causes.{Counts};
ghost use Rattle.zot_session.specs.Messages.{IsRead};
ghost use Rattle.zot_session.specs.Receiving.{Bodies, BodyCut, broken_as};
ghost use Rattle.zot_session.specs.Waiting.{KeepsRoom};
ghost use Rattle.zot_session.specs.declared.cut.Cut.TheVariants as cuts;

use crate::cut::Cut;
use crate::inbox::Inbox;
use std::alloc::Global;
use zot_head::{ChunkError, Chunks, Framing};
use zot_model::{BODY_LIMIT, Reply};
use zot_outside::Source;

/// What came of the body of a message.
#[derive(Drop)]
pub enum Body {
    /// It is whole, and its bytes were passed over.
    Whole(Vec<u8>),
    /// The message is refused so.
    Refused(Reply),
}

/// Receives the body of a message: takes pieces until it is whole or refused. Each piece is passed over before the next one is taken. An `Err` ends the connection.
pub fn receive_body<C: Source>(
    alloc: Global,
    inbox: &mut Inbox,
    source: &mut C,
    framing: Framing,
) -> Result<Body, Cut>
    requires { IsRead framing }
    ensures bodies { IfOk result (λ body. Bodies body framing inbox.old inbox.new (C.left source.old) (C.left source.new)) }
    ensures cut { IfErr result (λ cut. BodyCut cut framing inbox.old inbox.new (C.left source.old) (C.left source.new)) }
    ensures room { KeepsRoom inbox.old inbox.new }
    ensures faults { Counts (result ≡ Err cuts.Fault) (C.faults source.old) (C.faults source.new) }
{
    match framing {
        Framing::None => Ok(Body::Whole(Vec::new(alloc))),
        Framing::Length(size) => receive_length(alloc, inbox, source, size),
        Framing::Chunked => receive_chunks(alloc, inbox, source),
    }
}

// Receives a body of that many bytes.
fn receive_length<C: Source>(
    alloc: Global,
    inbox: &mut Inbox,
    source: &mut C,
    size: u64,
) -> Result<Body, Cut>
    requires { size ≤ body_limit }
    ensures bodies { IfOk result (λ body. Bodies body (framings.Length size) inbox.old inbox.new (C.left source.old) (C.left source.new)) }
    ensures cut { IfErr result (λ cut. BodyCut cut (framings.Length size) inbox.old inbox.new (C.left source.old) (C.left source.new)) }
    ensures room { KeepsRoom inbox.old inbox.new }
    ensures faults { Counts (result ≡ Err cuts.Fault) (C.faults source.old) (C.faults source.new) }
{
    let mut body = Vec::new(alloc);
    'pieces: loop {
        let n = share(size - body.len() as u64, inbox.waiting());
        match body.extend_from_slice(&inbox.waiting()[..n]) {
            Ok(()) => inbox.pass(n),
            Err(_) => return Err(Cut::NoMemory),
        }
        if body.len() as u64 == size {
            return Ok(Body::Whole(body));
        }
        match inbox.take(source) {
            Ok(()) => {}
            Err(cut) => return Err(cut),
        }
    }
}

// How many of the bytes that wait belong to a body that lacks so many.
fn share(lacks: u64, waiting: &[u8]) -> usize
    ensures { result ≡ min lacks (length waiting.now) }
{
    lacks.min(waiting.len() as u64) as usize
}

// Receives a body in chunks.
fn receive_chunks<C: Source>(alloc: Global, inbox: &mut Inbox, source: &mut C) -> Result<Body, Cut>
    ensures bodies { IfOk result (λ body. Bodies body framings.Chunked inbox.old inbox.new (C.left source.old) (C.left source.new)) }
    ensures cut { IfErr result (λ cut. BodyCut cut framings.Chunked inbox.old inbox.new (C.left source.old) (C.left source.new)) }
    ensures room { KeepsRoom inbox.old inbox.new }
    ensures faults { Counts (result ≡ Err cuts.Fault) (C.faults source.old) (C.faults source.new) }
{
    let mut chunks = Chunks::new(BODY_LIMIT);
    let mut body = Vec::new(alloc);
    'pieces: loop {
        match chunks.feed(inbox.waiting(), &mut body) {
            Err(error) => match broken(error) {
                Some(reply) => return Ok(Body::Refused(reply)),
                None => return Err(Cut::NoMemory),
            },
            Ok(fed) => {
                inbox.pass(fed.taken);
                if fed.done {
                    return Ok(Body::Whole(body));
                }
            }
        }
        match inbox.take(source) {
            Ok(()) => {}
            Err(cut) => return Err(cut),
        }
    }
}

// The refusal of a message whose body in chunks isn't read for this cause, or none where memory ran out.
fn broken(error: ChunkError) -> Option<Reply>
    ensures { result ≡ broken_as error }
{
    match error {
        ChunkError::Bad => Some(Reply::head_invalid()),
        ChunkError::TooLong => Some(Reply::head_too_long()),
        ChunkError::TooLarge => Some(Reply::size_invalid()),
        ChunkError::NoMemory => None,
    }
}
