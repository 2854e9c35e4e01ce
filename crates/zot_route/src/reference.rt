//! How a path refers to a manifest.
ghost use Rattle.std.specs.Prelude.{◌≡◌};
ghost use Rattle.zot_route.specs.Calls.{Refers, bad_reference as bad_reference_of};
ghost use Rattle.zot_route.specs.Stops.{UnlessNoMemory};

use crate::stop::Stop;
use std::alloc::Global;
use zot_digest::parse_digest;
use zot_media::Reference;
use zot_model::Reply;
use zot_names::{NameError, Tag};

/// How a text refers to a manifest; where it doesn't, it is refused as no digest if it has a `:`, and else as the caller says.
pub fn reference(alloc: Global, text: &str, other: Reply) -> Result<Reference, Stop>
    ensures { UnlessNoMemory result (Refers text.now other) }
{
    if let Ok(digest) = parse_digest(text) {
        return Ok(Reference::Digest(digest));
    }
    match Tag::read(alloc, text) {
        Ok(tag) => Ok(Reference::Tag(tag)),
        Err(NameError::Bad) => Err(Stop::Refused(bad_reference(text, other))),
        Err(NameError::NoMemory) => Err(Stop::NoMemory),
    }
}

// The refusal of a text that refers to no manifest.
fn bad_reference(text: &str, other: Reply) -> Reply
    ensures { result ≡ bad_reference_of text.now other }
{
    if text.as_bytes().contains(&b':') {
        Reply::digest_invalid()
    } else {
        other
    }
}
