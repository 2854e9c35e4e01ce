//! The codes of refusals.
ghost use Rattle.std.specs.Prelude.{◌≡◌};
ghost use Rattle.zot_model.specs.Codes.{code_text, message_text, status_of};

use crate::code_row::CodeRow;

/// Why a request was refused. The first ones, through `TooManyRequests`, are codes of the OCI Distribution Specification ("Error Codes"), the others are this project's own.
#[derive(Clone, Copy, Debug, PartialEq, Eq)]
pub enum Code {
    /// The repository has no such blob.
    BlobUnknown,
    /// An upload's range isn't one, or doesn't go on where the upload ends.
    BlobUploadInvalid,
    /// The repository has no such upload.
    BlobUploadUnknown,
    /// A text that isn't a digest, or bytes that have another digest than the one given.
    DigestInvalid,
    /// A manifest references a blob that the repository doesn't have.
    ManifestBlobUnknown,
    /// A manifest isn't one.
    ManifestInvalid,
    /// The repository has no such manifest or tag.
    ManifestUnknown,
    /// A text that isn't the name of a repository.
    NameInvalid,
    /// A repository that nobody has stored anything in.
    NameUnknown,
    /// A body is longer than its limit.
    SizeInvalid,
    /// A path, a method or a query that this registry doesn't have.
    Unsupported,
    /// The repository has as many uploads as it may have.
    TooManyRequests,
    /// A message whose head or chunks aren't read.
    HeadInvalid,
    /// A head or a trailer section is longer than its limit.
    HeadTooLong,
    /// The storage failed.
    StorageFault,
    /// The upstream registry failed.
    UpstreamFault,
    /// The upstream registry gave other bytes than those of the digest.
    UpstreamMismatch,
    /// The upstream registry doesn't have a content that it references.
    UpstreamIncomplete,
    /// The upstream registry gave a manifest that isn't one.
    UpstreamInvalid,
    /// The upstream registry's content is larger than what is mirrored.
    UpstreamTooLarge,
    /// The member that owns the repository failed.
    PeerFault,
    /// Memory ran out while the request was answered.
    NoMemory,
    /// A request was handed on to a member that doesn't own the repository.
    HopRefused,
}

impl Code {
    /// The text of the code.
    pub fn text(self) -> &'static str
        ensures { result.now ≡ code_text self }
    {
        CodeRow::of(self).text
    }

    /// The message of the code: its text in lower case, with spaces for underscores.
    pub fn message(self) -> &'static str
        ensures { result.now ≡ message_text self }
    {
        CodeRow::of(self).message
    }

    /// The status of a request that is refused with the code.
    pub fn status(self) -> u16
        ensures { result ≡ status_of self }
    {
        CodeRow::of(self).status
    }
}
