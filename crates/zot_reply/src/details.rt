//! What refusals say beside their codes.
ghost use Rattle.zot_model.specs.Codes.{HasDetail};
ghost use Rattle.zot_reply.specs.Details.{FindsDigest, IsDetailFrom};
ghost use Rattle.zot_reply.specs.Reading.{seen_of};

use crate::cutting::{first_digest, skip, skip_text};
use crate::values::{upload_id, upload_length};
use zot_digest::Digest;
use zot_model::{Code, Detail, Methods};
use zot_spell::SplitReply;

/// How many bytes of a refusal's body stand before its code, and between that and its detail.
const BEFORE_CODE: usize = 20;

const BEFORE_DETAIL: usize = 12;

/// How many bytes of a detail stand before the digest of what is missing, before the one that was wanted, and before the one that was found.
const MISSING_AT: usize = 0;

const WANTED_AT: usize = 9;

const FOUND_AT: usize = 87;

/// What a refusal with this code says beside it. To HEAD no body is shown, so there each detail of the code's kind is spelled alike.
pub fn detail_of(code: Code, split: &SplitReply) -> Detail
    ensures kind { HasDetail code result }
    ensures read { IsDetailFrom code (seen_of split.now) result }
{
    match code {
        Code::BlobUploadInvalid => Detail::Session(upload_id(split), upload_length(split)),
        Code::ManifestBlobUnknown => Detail::Missing(digest_at(code, split.body, MISSING_AT)),
        Code::UpstreamIncomplete => Detail::Missing(digest_at(code, split.body, MISSING_AT)),
        Code::UpstreamInvalid => Detail::Missing(digest_at(code, split.body, MISSING_AT)),
        Code::UpstreamMismatch => {
            let wanted = digest_at(code, split.body, WANTED_AT);
            Detail::Differ(wanted, digest_at(code, split.body, FOUND_AT))
        }
        Code::Unsupported => Detail::Allow(Methods::Read),
        _ => Detail::None,
    }
}

// The digest at this place of the detail in the body of a refusal with this code.
fn digest_at(code: Code, body: &[u8], place: usize) -> Digest
    ensures { FindsDigest code body.now place result }
{
    let detail = skip_text(body, BEFORE_CODE, code.text(), BEFORE_DETAIL);
    first_digest(skip(detail, place))
}
