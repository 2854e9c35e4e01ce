//! Replies held against bytes.
ghost use Rattle.std.specs.Prelude.{IfOk, IfSome, IsSome};
ghost use Rattle.zot_reply.specs.Reading.{Spells};

use std::alloc::{AllocError, Global};
use zot_model::{Reply, Request, fits};
use zot_spell::is_reply;

/// The reply, where it may answer the request and the bytes are it.
pub fn confirm(
    alloc: Global,
    request: &Request,
    reply: Reply,
    bytes: &[u8],
) -> Result<Option<Reply>, AllocError>
    ensures sound { IfOk result (λ found. IfSome found (λ r. Spells request.now r bytes.now)) }
    ensures whole { IfOk result (λ found. Spells request.now reply bytes.now → IsSome found) }
{
    if !fits(request, &reply) {
        return Ok(None);
    }
    let head = request.call.is_head();
    if is_reply(alloc, Some(request), &reply, head, bytes)? {
        Ok(Some(reply))
    } else {
        Ok(None)
    }
}
