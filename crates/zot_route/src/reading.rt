//! The call of a message, read from its head and its body.
ghost use Rattle.std.specs.Prelude.{◌≡◌, [], IfOk};
ghost use Rattle.zot_route.specs.Calls.{IsFrom, IsId};
ghost use Rattle.zot_route.specs.Routes.{IsCall, in_query};
ghost use Rattle.zot_route.specs.Stops.{UnlessNoMemory};
ghost use Rattle.zot_route.specs.declared.form.Form.TheVariants as forms;

use crate::calls;
use crate::decoded_text::DecodedText;
use crate::form::Form;
use crate::lines::range;
use crate::manifest::manifest;
use crate::pairs::value;
use crate::parsed_head::ParsedHead;
use crate::stop::Stop;
use std::alloc::{AllocError, Global};
use zot_digest::{Bytes, Words};
use zot_model::{Call, Reply};
use zot_names::{NameError, RepoName, UploadId};

/// The call that a message makes on a path of that form, of which this is the text of the last segment.
pub fn read_call(
    alloc: Global,
    form: Form,
    text: &str,
    head: &ParsedHead,
    body: Bytes,
) -> Result<Call, Stop>
    ensures { UnlessNoMemory result (IsCall form text.now head.now body) }
{
    match form {
        Form::Base => or_stop(calls::base(head.method())),
        Form::Tags => tags(alloc, head),
        Form::Referrers => referrers(alloc, text, head),
        Form::Manifest => { manifest(alloc, head.method(), text, head.fields(), body) }
        Form::Uploads => post(alloc, head, body),
        Form::Upload => upload(alloc, text, head, body),
        Form::Blob => or_stop(calls::blob(head.method(), text)),
    }
}

// The call, or the refusal as the cause why there is none.
fn or_stop(call: Result<Call, Reply>) -> Result<Call, Stop>
    ensures { UnlessNoMemory result (λ given. given ≡ call) }
{
    match call {
        Ok(call) => Ok(call),
        Err(reply) => Err(Stop::Refused(reply)),
    }
}

// The first value of a key in the query, as an owned text.
fn words(alloc: Global, head: &ParsedHead, key: &str) -> Result<Option<Words>, AllocError>
    ensures { IfOk result (λ words. words ≡ in_query head.now key.now) }
{
    match value(alloc, head.target().query(), key)? {
        Some(text) => Ok(Some(Words::new(text.into_string(alloc)?))),
        None => Ok(None),
    }
}

// The call on the tags.
fn tags(alloc: Global, head: &ParsedHead) -> Result<Call, Stop>
    ensures { UnlessNoMemory result (IsCall forms.Tags [] head.now []) }
{
    let n = value(alloc, head.target().query(), "n")?;
    let last = words(alloc, head, "last")?;
    or_stop(calls::tags(head.method(), &n, last))
}

// The call on the referrers of a digest.
fn referrers(alloc: Global, text: &str, head: &ParsedHead) -> Result<Call, Stop>
    ensures { UnlessNoMemory result (IsCall forms.Referrers text.now head.now []) }
{
    let filter = words(alloc, head, "artifactType")?;
    or_stop(calls::referrers(head.method(), text, filter))
}

// The name that a text is, where it is there and is one.
fn from_name(alloc: Global, text: Option<DecodedText>) -> Result<Option<RepoName>, AllocError>
    ensures { IfOk result (IsFrom text.entry) }
{
    let Some(text) = text else {
        return Ok(None);
    };
    match RepoName::read(alloc, text.as_str()) {
        Ok(name) => Ok(Some(name)),
        Err(NameError::Bad) => Ok(None),
        Err(NameError::NoMemory) => Err(AllocError),
    }
}

// The call on the uploads.
fn post(alloc: Global, head: &ParsedHead, body: Bytes) -> Result<Call, Stop>
    ensures { UnlessNoMemory result (IsCall forms.Uploads [] head.now body) }
{
    let query = head.target().query();
    let mount = value(alloc, query, "mount")?;
    let from = value(alloc, query, "from")?;
    let name = from_name(alloc, from)?;
    let digest = value(alloc, query, "digest")?;
    or_stop(calls::post(head.method(), &mount, name, &digest, body))
}

// The upload whose id a text is.
fn id(text: &str) -> Option<UploadId>
    ensures { IsId text.now result }
{
    UploadId::read(text)
}

// The call on an upload.
fn upload(alloc: Global, text: &str, head: &ParsedHead, body: Bytes) -> Result<Call, Stop>
    ensures { UnlessNoMemory result (IsCall forms.Upload text.now head.now body) }
{
    let digest = value(alloc, head.target().query(), "digest")?;
    or_stop(calls::upload(head.method(), id(text), range(head.fields()), &digest, body))
}
