//! Replies that are handed back.
ghost use Rattle.std.specs.Prelude.{IfOk};
ghost use Rattle.zot_model.specs.Calls.{is_head};
ghost use Rattle.zot_model.specs.Fits.{Fits};
ghost use Rattle.zot_spell.specs.Alike.{AreAlike};

use std::alloc::{AllocError, Global};
use zot_model::{Reply, Request, real_values};
use zot_reply::{ReadReplyError, read_reply};
use zot_spell::spell_reply;

/// The reply that is read of the bytes by which a member's reply to a request is handed back: one that is equal to it up to its spelling. It fails only where memory does.
pub fn carry_back(alloc: Global, request: &Request, reply: &Reply) -> Result<Reply, AllocError>
    requires { Fits request.now reply.now }
    ensures alike { IfOk result (AreAlike (is_head request.now.call) reply.now) }
    ensures fits { IfOk result (Fits request.now) }
{
    real_values(reply);
    let head = request.call.is_head();
    let bytes = spell_reply(alloc, Some(request), reply, head, false)?;
    match read_reply(alloc, request, bytes.as_slice()) {
        Ok(read) => Ok(read),
        Err(ReadReplyError::NoMemory) => Err(AllocError),
        Err(ReadReplyError::Bad) => unreachable!(),
    }
}
