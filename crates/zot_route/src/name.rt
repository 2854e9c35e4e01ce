//! The name in a path.
ghost use Rattle.std.specs.Prelude.{◌≡◌, ℕ, List, Option, IfOk, MatchOption};
ghost use Rattle.std.specs.List.{join_with_byte};
ghost use Rattle.std.specs.String.{string_bytes};
ghost use Rattle.zot_names.specs.Name.{IsName, slash};
ghost use Rattle.zot_route.specs.Routes.{Names};

use crate::decoded_text::DecodedText;
use crate::form::Form;
use std::alloc::{AllocError, Global};
use zot_names::{RepoName, is_name};

/// The name that a path of that form has, of these segments: none on the base route, and nothing where the segments joined by slashes are no name. It fails only where memory does.
pub fn name(
    alloc: Global,
    form: Form,
    segments: &[DecodedText],
) -> Result<Option<Option<RepoName>>, AllocError>
    ensures { IfOk result (λ found. MatchOption found ((name : Option (List ℕ)) → ¬ Names form segments.now name) (Names form segments.now)) }
{
    match form {
        Form::Base => Ok(Some(None)),
        Form::Tags | Form::Referrers | Form::Manifest | Form::Uploads | Form::Upload | Form::Blob =>
            match named(joined(alloc, segments)?) {
                Some(name) => Ok(Some(Some(name))),
                None => Ok(None),
            },
    }
}

// The name that a text is.
fn named(text: String) -> Option<RepoName>
    ensures { MatchOption result (¬ IsName (string_bytes text)) (λ name. (name ≡ string_bytes text) × IsName (string_bytes text)) }
{
    if is_name(text.as_str()) {
        Some(RepoName::new(text))
    } else {
        None
    }
}

// The segments joined by slashes.
fn joined(alloc: Global, segments: &[DecodedText]) -> Result<String, AllocError>
    ensures { IfOk result (λ text. string_bytes text ≡ join_with_byte slash segments.now) }
{
    let mut text = String::new(alloc);
    let Some((first, more)) = segments.split_first() else {
        return Ok(text);
    };
    text.push_str(first.as_str())?;
    for segment in more {
        text.push_str("/")?;
        text.push_str(segment.as_str())?;
    }
    Ok(text)
}
