//! The call that each method makes on a path of each form, and the digests and numbers in it. Takes no memory.
ghost use Rattle.std.specs.Prelude.{◌≡◌};
ghost use Rattle.zot_digest.specs.Digest.{digest_named};
ghost use Rattle.zot_route.specs.Calls.{base_call, blob_call, post_call, referrers_call, tags_call, upload_call, digest_or, mount_of, needed_digest as needed_digest_of, number_or, optional_digest as optional_digest_of, range_or};

use crate::decoded_text::DecodedText;
use crate::method::Method;
use zot_digest::{Bytes, Digest, Words, parse_digest};
use zot_head::length_of;
use zot_model::{Call, Methods, Mount, Reply, Span};
use zot_names::{RepoName, UploadId};

// The digest that a text is.
fn digest(text: &str) -> Result<Digest, Reply>
    ensures { result ≡ digest_or (digest_named text.now) }
{
    match parse_digest(text) {
        Ok(digest) => Ok(digest),
        Err(_) => Err(Reply::digest_invalid()),
    }
}

/// The call on the base route.
pub fn base(method: Method) -> Result<Call, Reply>
    ensures { result ≡ base_call method }
{
    match method {
        Method::Get | Method::Head => Ok(Call::Base),
        _ => Err(Reply::not_allowed(Methods::Read)),
    }
}

/// The call on a blob, by the text of its digest.
pub fn blob(method: Method, text: &str) -> Result<Call, Reply>
    ensures { result ≡ blob_call method text.now }
{
    match method {
        Method::Get => Ok(Call::GetBlob(digest(text)?)),
        Method::Head => Ok(Call::HeadBlob(digest(text)?)),
        Method::Delete => Ok(Call::DeleteBlob(digest(text)?)),
        _ => Err(Reply::not_allowed(Methods::Blob)),
    }
}

/// The call on the referrers of a digest, by its text and the artifact type.
pub fn referrers(method: Method, text: &str, filter: Option<Words>) -> Result<Call, Reply>
    ensures { result ≡ referrers_call method text.now filter }
{
    match method {
        Method::Get => Ok(Call::Referrers {
            digest: digest(text)?,
            filter,
        }),
        _ => Err(Reply::not_allowed(Methods::List)),
    }
}

// The number of a text of 1 to 18 digits, where it is there.
fn number(text: &Option<DecodedText>) -> Result<Option<u64>, Reply>
    ensures { result ≡ number_or text.now }
{
    match text {
        Some(text) => match length_of(text.as_str().as_bytes()) {
            Some(n) => Ok(Some(n)),
            None => Err(Reply::unsupported_query()),
        },
        None => Ok(None),
    }
}

/// The call on the tags, by the texts of `n` and `last`.
pub fn tags(method: Method, n: &Option<DecodedText>, last: Option<Words>) -> Result<Call, Reply>
    ensures { result ≡ tags_call method n.now last }
{
    match method {
        Method::Get => Ok(Call::Tags {
            n: number(n)?,
            last,
        }),
        _ => Err(Reply::not_allowed(Methods::List)),
    }
}

// The digest that a text is, where it is there.
fn optional_digest(text: &Option<DecodedText>) -> Result<Option<Digest>, Reply>
    ensures { result ≡ optional_digest_of text.now }
{
    match text {
        Some(text) => Ok(Some(digest(text.as_str())?)),
        None => Ok(None),
    }
}

// A blob to be taken over, where there is a digest.
fn mount(digest: Option<Digest>, from: Option<RepoName>) -> Option<Mount>
    ensures { result ≡ mount_of digest from }
{
    match digest {
        Some(digest) => Some(Mount { digest, from }),
        None => None,
    }
}

/// The call on the uploads, by the texts of `mount` and `digest`, the name in `from`, and the body.
pub fn post(
    method: Method,
    mounted: &Option<DecodedText>,
    from: Option<RepoName>,
    named: &Option<DecodedText>,
    body: Bytes,
) -> Result<Call, Reply>
    ensures { result ≡ post_call method mounted.now from named.now body }
{
    match method {
        Method::Post => {
            let mounted = optional_digest(mounted)?;
            let digest = optional_digest(named)?;
            Ok(Call::Post {
                mount: mount(mounted, from),
                digest,
                body,
            })
        }
        _ => Err(Reply::not_allowed(Methods::Begin)),
    }
}

// A range that is one, or is missing.
fn range_of(range: Option<Option<Span>>) -> Result<Option<Span>, Reply>
    ensures { result ≡ range_or range }
{
    match range {
        Some(range) => Ok(range),
        None => Err(Reply::range_invalid()),
    }
}

// The digest that a text is, which has to be there.
fn needed_digest(text: &Option<DecodedText>) -> Result<Digest, Reply>
    ensures { result ≡ needed_digest_of text.now }
{
    match text {
        Some(text) => digest(text.as_str()),
        None => Err(Reply::digest_invalid()),
    }
}

/// The call on an upload, by its id, the range, the text of `digest`, and the body.
pub fn upload(
    method: Method,
    id: Option<UploadId>,
    range: Option<Option<Span>>,
    named: &Option<DecodedText>,
    body: Bytes,
) -> Result<Call, Reply>
    ensures { result ≡ upload_call method id range named.now body }
{
    match method {
        Method::Get => Ok(Call::UploadState { id }),
        Method::Patch => Ok(Call::Patch {
            id,
            range: range_of(range)?,
            body,
        }),
        Method::Put => {
            let digest = needed_digest(named)?;
            Ok(Call::Finish {
                id,
                range: range_of(range)?,
                digest,
                body,
            })
        }
        _ => Err(Reply::not_allowed(Methods::Upload)),
    }
}
