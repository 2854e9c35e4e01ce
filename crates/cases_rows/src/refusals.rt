//! Refusals, by the words of their constructors.
use zot_cases::Answer;
use zot_digest::digest_of;
use zot_model::{Methods, Reply};
use zot_names::UploadId;

/// What the refusal of this word says: its status, its detail, and its code's text and message.
pub fn refusal(answer: &mut Answer, given: &str) {
    let reply = match given {
        "blob_unknown" => Reply::blob_unknown(),
        "upload_unknown" => Reply::upload_unknown(),
        "upload_invalid" => Reply::upload_invalid(UploadId::new(1), 2),
        "digest_invalid" => Reply::digest_invalid(),
        "manifest_invalid" => Reply::manifest_invalid(),
        "manifest_blob_unknown" => Reply::manifest_blob_unknown(digest_of(b"{}")),
        "manifest_unknown" => Reply::manifest_unknown(),
        "name_unknown" => Reply::name_unknown(),
        "size_invalid" => Reply::size_invalid(),
        "too_many_requests" => Reply::too_many_requests(),
        "no_memory" => Reply::no_memory(),
        "storage_fault" => Reply::storage_fault(),
        "peer_fault" => Reply::peer_fault(),
        "hop_refused" => Reply::hop_refused(),
        "head_invalid" => Reply::head_invalid(),
        "head_too_long" => Reply::head_too_long(),
        "name_invalid" => Reply::name_invalid(),
        "not_allowed" => Reply::not_allowed(Methods::Read),
        "unsupported_path" => Reply::unsupported_path(),
        "unsupported_query" => Reply::unsupported_query(),
        "range_invalid" => Reply::range_invalid(),
        _ => Reply::Base,
    };
    if let Reply::Refused {
        status,
        code,
        detail,
    } = &reply
    {
        answer.show(&(*status, *detail, code.text(), code.message()));
    }
}
