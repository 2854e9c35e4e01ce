//! The refusals that this registry answers.
ghost use Rattle.std.specs.Prelude.{◌≡◌};
ghost use Rattle.zot_model.specs.Refusals.{declined, hop_refused, no_memory, not_allowed, peer_fault, range_invalid, refusal, refusal_with, storage_fault, unsupported_path, unsupported_query, upload_invalid};
ghost use Rattle.zot_model.specs.declared.code.Code.TheVariants as codes;
ghost use Rattle.zot_model.specs.declared.detail.Detail.TheVariants as details;

use crate::code::Code;
use crate::code_row::{NO_NUMBER, NO_PATH, NO_RANGE};
use crate::detail::Detail;
use crate::methods::Methods;
use crate::reply::Reply;
use zot_digest::Digest;
use zot_names::UploadId;

/// Refusals of requests, each with its code's status.
impl Reply {
    /// The repository has no such blob.
    pub fn blob_unknown() -> Self
        ensures { result ≡ refusal codes.BlobUnknown }
    {
        refusal(Code::BlobUnknown)
    }

    /// The repository has no such upload.
    pub fn upload_unknown() -> Self
        ensures { result ≡ refusal codes.BlobUploadUnknown }
    {
        refusal(Code::BlobUploadUnknown)
    }

    /// A piece doesn't go on where this upload ends, which has so many bytes.
    pub fn upload_invalid(id: UploadId, length: u64) -> Self
        ensures { result ≡ upload_invalid id length }
    {
        refusal_with(Code::BlobUploadInvalid, Detail::Session(id, length))
    }

    /// A text isn't a digest, or bytes have another digest than the one given.
    pub fn digest_invalid() -> Self
        ensures { result ≡ refusal codes.DigestInvalid }
    {
        refusal(Code::DigestInvalid)
    }

    /// A manifest isn't one.
    pub fn manifest_invalid() -> Self
        ensures { result ≡ refusal codes.ManifestInvalid }
    {
        refusal(Code::ManifestInvalid)
    }

    /// The repository has no such manifest or tag.
    pub fn manifest_unknown() -> Self
        ensures { result ≡ refusal codes.ManifestUnknown }
    {
        refusal(Code::ManifestUnknown)
    }

    /// A manifest needs this blob, which the repository doesn't have.
    pub fn manifest_blob_unknown(missing: Digest) -> Self
        ensures { result ≡ refusal_with codes.ManifestBlobUnknown (details.Missing missing) }
    {
        refusal_with(Code::ManifestBlobUnknown, Detail::Missing(missing))
    }

    /// Nobody has stored anything in the repository.
    pub fn name_unknown() -> Self
        ensures { result ≡ refusal codes.NameUnknown }
    {
        refusal(Code::NameUnknown)
    }

    /// A body is longer than its limit.
    pub fn size_invalid() -> Self
        ensures { result ≡ refusal codes.SizeInvalid }
    {
        refusal(Code::SizeInvalid)
    }

    /// The repository has as many uploads as it may have.
    pub fn too_many_requests() -> Self
        ensures { result ≡ refusal codes.TooManyRequests }
    {
        refusal(Code::TooManyRequests)
    }

    /// Memory ran out.
    pub fn no_memory() -> Self
        ensures { result ≡ no_memory }
    {
        refusal(Code::NoMemory)
    }

    /// The storage failed.
    pub fn storage_fault() -> Self
        ensures { result ≡ storage_fault }
    {
        refusal(Code::StorageFault)
    }

    /// Another member couldn't be asked.
    pub fn peer_fault() -> Self
        ensures { result ≡ peer_fault }
    {
        refusal(Code::PeerFault)
    }

    /// A request that a member handed on came to one that doesn't own its repository.
    pub fn hop_refused() -> Self
        ensures { result ≡ hop_refused }
    {
        refusal(Code::HopRefused)
    }
}

/// Refusals of messages that ask for nothing.
impl Reply {
    /// The head or the chunks aren't read.
    pub fn head_invalid() -> Self
        ensures { result ≡ refusal codes.HeadInvalid }
    {
        refusal(Code::HeadInvalid)
    }

    /// The head or the trailer section is longer than its limit.
    pub fn head_too_long() -> Self
        ensures { result ≡ refusal codes.HeadTooLong }
    {
        refusal(Code::HeadTooLong)
    }

    /// A text isn't the name of a repository.
    pub fn name_invalid() -> Self
        ensures { result ≡ refusal codes.NameInvalid }
    {
        refusal(Code::NameInvalid)
    }

    /// The path doesn't have the method, but these.
    pub fn not_allowed(methods: Methods) -> Self
        ensures { result ≡ not_allowed methods }
    {
        refusal_with(Code::Unsupported, Detail::Allow(methods))
    }

    /// No route has the path.
    pub fn unsupported_path() -> Self
        ensures { result ≡ unsupported_path }
    {
        declined(NO_PATH, Code::Unsupported)
    }

    /// A number in the query isn't one.
    pub fn unsupported_query() -> Self
        ensures { result ≡ unsupported_query }
    {
        declined(NO_NUMBER, Code::Unsupported)
    }

    /// A range isn't one.
    pub fn range_invalid() -> Self
        ensures { result ≡ range_invalid }
    {
        declined(NO_RANGE, Code::BlobUploadInvalid)
    }
}

// The refusal with a code, which says nothing beside it.
fn refusal(code: Code) -> Reply
    ensures { result ≡ refusal code }
{
    refusal_with(code, Detail::None)
}

// The refusal with a code, which says this beside it.
fn refusal_with(code: Code, detail: Detail) -> Reply
    ensures { result ≡ refusal_with code detail }
{
    Reply::Refused {
        status: code.status(),
        code,
        detail,
    }
}

// The refusal of a message with a code, with another status than that of requests.
fn declined(status: u16, code: Code) -> Reply
    ensures { result ≡ declined status code }
{
    Reply::Refused {
        status,
        code,
        detail: Detail::None,
    }
}
