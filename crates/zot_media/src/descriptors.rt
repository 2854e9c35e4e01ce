//! Descriptors read from a document's values.
ghost use Rattle.std.specs.Prelude.{◌≡◌, is_some, map};
ghost use Rattle.std.specs.List.{list_all};
ghost use Rattle.serde_json.specs.Find.{as_str};
ghost use Rattle.serde_json.specs.View.{view};
ghost use Rattle.zot_media.specs.Answers.{IsRead};
ghost use Rattle.zot_media.specs.Descriptors.{descriptor_of, descriptors_of, digest_in, external_by, external_in, size_in};
ghost use Rattle.zot_media.specs.Fields.{each};

use crate::descriptor::Descriptor;
use crate::descriptor_list::DescriptorList;
use crate::fields::{list_of, text_of, whole_of};
use crate::media_error::MediaError;
use serde_json::Value;
use std::alloc::Global;
use zot_digest::{Digest, Words, parse_digest};

/// The greatest size of a content: the greatest whole number that 63 bits hold.
const GREATEST_SIZE: u64 = 9_223_372_036_854_775_807;

/// The descriptors of a field that is a list of them; a field that is missing or null counts as an empty one.
#[tactic(auto, unfolding(crate::specs::Descriptors::descriptors_of))]
pub fn read_descriptors(
    alloc: Global,
    value: &Value,
    name: &str,
) -> Result<DescriptorList, MediaError>
    ensures { IsRead result (descriptors_of name.now (view value.now)) }
{
    match list_of(value, name) {
        Some(items) => read_each(alloc, items),
        None => Err(MediaError::Bad),
    }
}

// The descriptors that these values are.
fn read_each(alloc: Global, items: &[Value]) -> Result<DescriptorList, MediaError>
    ensures { IsRead result (each descriptor_of (map view items.now)) }
{
    let mut descriptors = Vec::with_capacity(alloc, items.len())?;
    for item in items {
        descriptors.push(read_descriptor(alloc, item)?)?;
    }
    Ok(DescriptorList::new(descriptors))
}

/// The descriptor that a value is.
#[tactic(auto, unfolding(crate::specs::Descriptors::descriptor_of))]
pub fn read_descriptor(alloc: Global, value: &Value) -> Result<Descriptor, MediaError>
    ensures { IsRead result (descriptor_of (view value.now)) }
{
    let Some(media) = text_of(value, "mediaType") else {
        return Err(MediaError::Bad);
    };
    let Some(digest) = digest_in(value) else {
        return Err(MediaError::Bad);
    };
    let Some(size) = size_in(value) else {
        return Err(MediaError::Bad);
    };
    let Some(external) = external_in(value) else {
        return Err(MediaError::Bad);
    };
    let media = Words::new(String::from_str(alloc, media)?);
    Ok(Descriptor {
        media,
        digest,
        size,
        external,
    })
}

// The digest of the content.
#[tactic(auto, unfolding(crate::specs::Descriptors::digest_in))]
fn digest_in(value: &Value) -> Option<Digest>
    ensures { result ≡ digest_in (view value.now) }
{
    match text_of(value, "digest") {
        Some(text) => parse_digest(text).ok(),
        None => None,
    }
}

// How many bytes the content has.
#[tactic(auto, unfolding(crate::specs::Descriptors::size_in))]
fn size_in(value: &Value) -> Option<u64>
    ensures { result ≡ size_in (view value.now) }
{
    match whole_of(value, "size") {
        Some(size) if size <= GREATEST_SIZE => Some(size),
        _ => None,
    }
}

// Whether the content may be fetched elsewhere: the field `urls` has an element.
#[tactic(auto, unfolding(crate::specs::Descriptors::external_in))]
fn external_in(value: &Value) -> Option<bool>
    ensures { result ≡ external_in (view value.now) }
{
    match list_of(value, "urls") {
        Some(urls) => external_by(urls),
        None => None,
    }
}

// Whether a list of texts has an element.
fn external_by(urls: &[Value]) -> Option<bool>
    ensures { result ≡ external_by (map view urls.now) }
{
    if are_texts(urls) {
        Some(!urls.is_empty())
    } else {
        None
    }
}

// Whether each value is a text.
fn are_texts(items: &[Value]) -> bool
    ensures { result ≡ list_all (λ item. is_some (as_str (view item))) items.now }
{
    items.iter().all(|item| item.is_string())
}
