//! Refusals that bytes may be.
ghost use Rattle.std.specs.Prelude.{IfOk, IfSome, IsSome};
ghost use Rattle.zot_model.specs.Codes.{HasDetail};
ghost use Rattle.zot_model.specs.Fits.{IsAmong};
ghost use Rattle.zot_model.specs.Refusals.{refusal_with};
ghost use Rattle.zot_model.specs.declared.code.Code.{Code};
ghost use Rattle.zot_model.specs.declared.detail.Detail.{Detail};
ghost use Rattle.zot_reply.specs.Reading.{IsWanted, Spells, seen_of};

use crate::confirming::confirm;
use crate::details::detail_of;
use std::alloc::{AllocError, Global};
use zot_model::{Code, Reply, Request, real_values};
use zot_spell::SplitReply;

/// All codes: of a refusal to HEAD no text of a code is shown, so each code with its status is tried. `zot_model` has the row of each code, and no list of them.
pub const CODES: [Code; 23] = [
    Code::BlobUnknown,
    Code::BlobUploadInvalid,
    Code::BlobUploadUnknown,
    Code::DigestInvalid,
    Code::ManifestBlobUnknown,
    Code::ManifestInvalid,
    Code::ManifestUnknown,
    Code::NameInvalid,
    Code::NameUnknown,
    Code::SizeInvalid,
    Code::Unsupported,
    Code::TooManyRequests,
    Code::HeadInvalid,
    Code::HeadTooLong,
    Code::StorageFault,
    Code::UpstreamFault,
    Code::UpstreamMismatch,
    Code::UpstreamIncomplete,
    Code::UpstreamInvalid,
    Code::UpstreamTooLarge,
    Code::PeerFault,
    Code::NoMemory,
    Code::HopRefused,
];

/// The refusal of a request with one of these codes that bytes are, if they are one.
pub fn read_refusals(
    alloc: Global,
    request: &Request,
    codes: &[Code],
    bytes: &[u8],
    split: &SplitReply,
) -> Result<Option<Reply>, AllocError>
    ensures sound { IfOk result (λ found. IfSome found (λ reply. Spells request.now reply bytes.now)) }
    ensures whole { IfOk result (λ found. (code : Code) (detail : Detail) → IsAmong codes.now code → HasDetail code detail
        → IsWanted request.now (refusal_with code detail) bytes.now (seen_of split.now) → IsSome found) }
{
    for code in codes {
        if let Some(reply) = read_refusal(alloc, request, *code, bytes, split)? {
            return Ok(Some(reply));
        }
    }
    Ok(None)
}

// The refusal with this code that bytes are, if they are one.
fn read_refusal(
    alloc: Global,
    request: &Request,
    code: Code,
    bytes: &[u8],
    split: &SplitReply,
) -> Result<Option<Reply>, AllocError>
    ensures sound { IfOk result (λ found. IfSome found (λ reply. Spells request.now reply bytes.now)) }
    ensures whole { IfOk result (λ found. (detail : Detail) → HasDetail code detail
        → IsWanted request.now (refusal_with code detail) bytes.now (seen_of split.now) → IsSome found) }
{
    let status = code.status();
    if status != split.status {
        return Ok(None);
    }
    let detail = detail_of(code, split);
    let reply = Reply::Refused {
        status,
        code,
        detail,
    };
    real_values(&reply);
    confirm(alloc, request, reply, bytes)
}
