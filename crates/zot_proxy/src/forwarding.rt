//! Requests that are handed on.
ghost use Rattle.std.specs.Prelude.{◌≡◌, ◌++◌, true, IfOk};
ghost use Rattle.zot_model.specs.Valid.{IsValid};
ghost use Rattle.zot_proxy.specs.Forwarding.{IsReadAs};
ghost use Rattle.zot_spell.specs.Wire.{body_of, request_bytes, with_hop};

use std::alloc::{AllocError, Global};
use zot_model::{Request, has_values};
use zot_spell::{body_of, spell_request_head};

/// A request on its way to another member: the bytes of its head, and after them those of its body, which the request holds.
#[derive(Debug, Drop)]
pub struct WireRequest<'a> {
    pub head: Vec<u8>,
    pub body: &'a [u8],
}

/// The bytes by which a request is handed on, with its hop. The member that they come to reads the same request with its hop, whatever the length of the head. The body isn't copied. It fails only where memory does.
pub fn forwarded(alloc: Global, request: &Request) -> Result<WireRequest<'_>, AllocError>
    ensures bytes { IfOk result (λ wire. wire.head.items ++ wire.body.now ≡ request_bytes (with_hop request.now true)) }
    ensures body { IfOk result (λ wire. wire.body.now ≡ body_of request.now) }
    ensures read { IsValid request.now → IfOk result (λ wire. IsReadAs (with_hop request.now true) wire.head.items wire.body.now) }
{
    has_values(request);
    let body = body_of(request);
    let head = spell_request_head(alloc, request, true, body.len() as u64)?;
    Ok(WireRequest { head, body })
}
