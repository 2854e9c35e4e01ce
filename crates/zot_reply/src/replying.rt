//! Replies read back from their bytes.
ghost use Rattle.std.specs.Prelude.{◌≡◌, IfOk, IfSome, IsSome, Err, MatchResult};
ghost use Rattle.zot_model.specs.Calls.{is_head};
ghost use Rattle.zot_model.specs.Values.{IsReal};
ghost use Rattle.zot_model.specs.declared.reply.Reply.{Reply};
ghost use Rattle.zot_reply.specs.declared.read_reply_error.ReadReplyError.TheVariants.{Bad, NoMemory};
ghost use Rattle.zot_reply.specs.Reading.{IsWanted, Spells, seen_of};
ghost use Rattle.zot_spell.specs.Alike.{AreAlike};

use crate::confirming::confirm;
use crate::read_reply_error::ReadReplyError;
use crate::refusals::{CODES, read_refusals};
use crate::successes::read_success;
use std::alloc::{AllocError, Global};
use zot_model::{Reply, Request, has_values, real_values};
use zot_spell::{SplitReply, split_reply};

/// The reply to a request that bytes spell: one that may answer it (`Fits`), to the request's method, whether or not the connection closes after it. `Bad` comes exactly where the bytes spell no such reply, with a body that is longer or shorter than its length among them, and `NoMemory` only where memory runs out. Of replies that are spelled alike one is given, so what `spell_reply` spelled is read as a reply that is equal to it up to its spelling. A body is copied once, into the reply, and no body that the reply holds is spelled.
pub fn read_reply(alloc: Global, request: &Request, bytes: &[u8]) -> Result<Reply, ReadReplyError>
    ensures read { IfOk result (λ reply. Spells request.now reply bytes.now) }
    ensures bad { result ≡ Err Bad → (reply : Reply) → IsReal reply → ¬ Spells request.now reply bytes.now }
    ensures alike { (reply : Reply) → IsReal reply → Spells request.now reply bytes.now
        → MatchResult result (λ found. AreAlike (is_head request.now.call) reply found) (λ error. error ≡ NoMemory) }
{
    match find_reply(alloc, request, bytes)? {
        Some(reply) => {
            real_values(&reply);
            Ok(reply)
        }
        None => Err(ReadReplyError::Bad),
    }
}

// The reply to a request that bytes spell, if they spell one.
fn find_reply(alloc: Global, request: &Request, bytes: &[u8]) -> Result<Option<Reply>, AllocError>
    ensures sound { IfOk result (λ found. IfSome found (λ reply. Spells request.now reply bytes.now)) }
    ensures whole { IfOk result (λ found. (reply : Reply) → IsReal reply → Spells request.now reply bytes.now → IsSome found) }
{
    has_values(request);
    match split_reply(alloc, bytes)? {
        Some(split) => find_split(alloc, request, bytes, &split),
        None => Ok(None),
    }
}

// The reply to a request that these bytes spell, which were split, if they spell one.
fn find_split(
    alloc: Global,
    request: &Request,
    bytes: &[u8],
    split: &SplitReply,
) -> Result<Option<Reply>, AllocError>
    ensures sound { IfOk result (λ found. IfSome found (λ reply. Spells request.now reply bytes.now)) }
    ensures whole { IfOk result (λ found. (reply : Reply) → IsWanted request.now reply bytes.now (seen_of split.now) → IsSome found) }
{
    let success = read_success(alloc, request, split)?;
    match confirm(alloc, request, success, bytes)? {
        Some(reply) => Ok(Some(reply)),
        None => read_refusals(alloc, request, CODES.as_slice(), bytes, split),
    }
}
