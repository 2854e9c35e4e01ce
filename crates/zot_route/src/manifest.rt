//! The call on a manifest.
ghost use Rattle.std.specs.Prelude.{Ok};
ghost use Rattle.zot_model.specs.declared.code.Code.TheVariants.{ManifestInvalid, ManifestUnknown};
ghost use Rattle.zot_model.specs.Refusals.{refusal};
ghost use Rattle.zot_route.specs.Calls.{IsManifestCall, IsPutCall, Refers};
ghost use Rattle.zot_route.specs.Stops.{UnlessNoMemory};

use crate::lines::media;
use crate::method::Method;
use crate::reference::reference;
use crate::stop::Stop;
use std::alloc::Global;
use zot_digest::Bytes;
use zot_head::Field;
use zot_media::Reference;
use zot_model::{Call, MANIFEST_LIMIT, Methods, Reply};

/// The call on a manifest, by the text of its reference, the fields and the body.
pub fn manifest(
    alloc: Global,
    method: Method,
    text: &str,
    fields: &[Field],
    body: Bytes,
) -> Result<Call, Stop>
    ensures { UnlessNoMemory result (IsManifestCall method text.now fields.now body) }
{
    match method {
        Method::Get => Ok(Call::GetManifest(known(alloc, text)?)),
        Method::Head => Ok(Call::HeadManifest(known(alloc, text)?)),
        Method::Delete => Ok(Call::DeleteManifest(known(alloc, text)?)),
        Method::Put => {
            let reference = wanted(alloc, text)?;
            put(alloc, reference, fields, body)
        }
        Method::Post | Method::Patch | Method::Other => {
            Err(Stop::Refused(Reply::not_allowed(Methods::Manifest)))
        }
    }
}

// The reference to a manifest that may be there.
fn known(alloc: Global, text: &str) -> Result<Reference, Stop>
    ensures { UnlessNoMemory result (Refers text.now (refusal ManifestUnknown)) }
{
    reference(alloc, text, Reply::manifest_unknown())
}

// The reference of a manifest to be stored.
fn wanted(alloc: Global, text: &str) -> Result<Reference, Stop>
    ensures { UnlessNoMemory result (Refers text.now (refusal ManifestInvalid)) }
{
    reference(alloc, text, Reply::manifest_invalid())
}

// A manifest to be stored, with its media.
#[tactic(auto, unfolding(zot_model::specs::Valid::manifest_limit))]
fn put(alloc: Global, reference: Reference, fields: &[Field], body: Bytes) -> Result<Call, Stop>
    ensures { UnlessNoMemory result (IsPutCall fields.now body (Ok reference)) }
{
    if body.as_slice().len() > MANIFEST_LIMIT {
        return Err(Stop::Refused(Reply::size_invalid()));
    }
    let media = media(alloc, fields, body.as_slice())?;
    Ok(Call::PutManifest {
        reference,
        media,
        body,
    })
}
