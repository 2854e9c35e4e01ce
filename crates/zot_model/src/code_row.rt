//! The table of the codes of refusals.
ghost use Rattle.std.specs.Prelude.{◌≡◌};
ghost use Rattle.zot_model.specs.Codes.{code_text, message_text, status_of};

use crate::code::Code;

/// The status with which a path is refused that no route has.
pub const NO_PATH: u16 = 404;

/// The status with which a query is refused whose number isn't one.
pub const NO_NUMBER: u16 = 400;

/// The status with which a range is refused that isn't one.
pub const NO_RANGE: u16 = 400;

/// The row of a code: its text, its message, and the status of a request that is refused with it.
#[derive(Clone, Copy)]
pub struct CodeRow {
    pub text: &'static str,
    pub message: &'static str,
    pub status: u16,
}

impl CodeRow {
    /// The row of a code.
    #[tactic(auto, unfolding(crate::specs::Codes::code_text, crate::specs::Codes::message_text))]
    pub fn of(code: Code) -> Self
        ensures text { result.text.now ≡ code_text code }
        ensures message { result.message.now ≡ message_text code }
        ensures status { result.status ≡ status_of code }
    {
        let (text, message, status) = match code {
            Code::BlobUnknown => ("BLOB_UNKNOWN", "blob unknown", 404),
            Code::BlobUploadInvalid => ("BLOB_UPLOAD_INVALID", "blob upload invalid", 416),
            Code::BlobUploadUnknown => ("BLOB_UPLOAD_UNKNOWN", "blob upload unknown", 404),
            Code::DigestInvalid => ("DIGEST_INVALID", "digest invalid", 400),
            Code::ManifestBlobUnknown => ("MANIFEST_BLOB_UNKNOWN", "manifest blob unknown", 400),
            Code::ManifestInvalid => ("MANIFEST_INVALID", "manifest invalid", 400),
            Code::ManifestUnknown => ("MANIFEST_UNKNOWN", "manifest unknown", 404),
            Code::NameInvalid => ("NAME_INVALID", "name invalid", 400),
            Code::NameUnknown => ("NAME_UNKNOWN", "name unknown", 404),
            Code::SizeInvalid => ("SIZE_INVALID", "size invalid", 413),
            Code::Unsupported => ("UNSUPPORTED", "unsupported", 405),
            Code::TooManyRequests => ("TOOMANYREQUESTS", "toomanyrequests", 429),
            Code::HeadInvalid => ("HEAD_INVALID", "head invalid", 400),
            Code::HeadTooLong => ("HEAD_TOO_LONG", "head too long", 431),
            Code::StorageFault => ("STORAGE_FAULT", "storage fault", 500),
            Code::UpstreamFault => ("UPSTREAM_FAULT", "upstream fault", 502),
            Code::UpstreamMismatch => ("UPSTREAM_MISMATCH", "upstream mismatch", 502),
            Code::UpstreamIncomplete => ("UPSTREAM_INCOMPLETE", "upstream incomplete", 502),
            Code::UpstreamInvalid => ("UPSTREAM_INVALID", "upstream invalid", 502),
            Code::UpstreamTooLarge => ("UPSTREAM_TOO_LARGE", "upstream too large", 502),
            Code::PeerFault => ("PEER_FAULT", "peer fault", 502),
            Code::NoMemory => ("NO_MEMORY", "no memory", 503),
            Code::HopRefused => ("HOP_REFUSED", "hop refused", 508),
        };
        CodeRow {
            text,
            message,
            status,
        }
    }
}
