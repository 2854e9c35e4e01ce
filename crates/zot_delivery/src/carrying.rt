//! A request on its way from one member to another.
ghost use Rattle.std.specs.Prelude.{◌≡◌, IfOk};
ghost use Rattle.zot_head.specs.Front.{IsHead};
ghost use Rattle.zot_head.specs.declared.head.Head.{Head as AHead};
ghost use Rattle.zot_model.specs.Valid.{IsValid};
ghost use Rattle.zot_spell.specs.Wire.{with_hop};

use std::alloc::{AllocError, Global};
use zot_head::{Head, HeadError, read_head};
use zot_model::{Request, has_values};
use zot_route::{ParsedHead, Routed, route};
use zot_spell::{body_of, spell_request_head};

/// The request that another member reads of this one, handed on or not as `hop` says, whatever the length of its head. It fails only where memory does.
pub fn carry(alloc: Global, request: &Request, hop: bool) -> Result<Request, AllocError>
    requires { IsValid request.now }
    ensures { IfOk result (λ other. other ≡ with_hop request.now hop) }
{
    has_values(request);
    let body = body_of(request);
    let bytes = spell_request_head(alloc, request, hop, body.len() as u64)?;
    let head = head_in(alloc, bytes.as_slice())?;
    let parsed = ParsedHead::new(&head);
    match route(alloc, &parsed, Vec::from_slice(alloc, body)?)? {
        Routed::Request(other) => Ok(other),
        Routed::Refused(_) => unreachable!(),
    }
}

// The head that is all of these bytes.
fn head_in(alloc: Global, bytes: &[u8]) -> Result<Head, AllocError>
    requires { (head : AHead) × IsHead bytes.now head }
    ensures { IfOk result (IsHead bytes.now) }
{
    match read_head(alloc, bytes) {
        Ok(head) => Ok(head),
        Err(HeadError::NoMemory) => Err(AllocError),
        Err(HeadError::Bad) => unreachable!(),
        Err(HeadError::TooLong) => unreachable!(),
    }
}
