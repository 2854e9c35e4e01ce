//! The fields of a document's objects.
ghost use Rattle.std.specs.Prelude.{◌≡◌, IfOk, IfErr, None, Some, map, option_map};
ghost use Rattle.serde_json.specs.Find.{as_str};
ghost use Rattle.serde_json.specs.View.{view};
ghost use Rattle.zot_media.specs.Answers.{IsRead};
ghost use Rattle.zot_media.specs.Fields.{document, given, list_of, listed, text_of, whole_of};
ghost use Rattle.zot_media.specs.declared.media_error.MediaError.TheVariants.{Bad};

use crate::media_error::MediaError;
use serde_json::Value;
use std::alloc::Global;
use zot_digest::Words;

/// The value that the bytes are.
#[tactic(auto, unfolding(crate::specs::Fields::document))]
pub fn read_document(alloc: Global, bytes: &[u8]) -> Result<Value, MediaError>
    ensures read { IfOk result (λ value. document bytes.now ≡ Some (view value)) }
    ensures bad { IfErr result (λ error. error ≡ Bad → document bytes.now ≡ None) }
{
    match Value::from_slice(alloc, bytes) {
        Ok(document) => Ok(document),
        Err(error) => {
            if error.is_memory() {
                Err(MediaError::NoMemory)
            } else {
                Err(MediaError::Bad)
            }
        }
    }
}

/// The value of a field that is there and isn't null.
#[tactic(auto, unfolding(crate::specs::Fields::given))]
pub fn given<'a>(value: &'a Value, name: &str) -> Option<&'a Value>
    ensures { option_map (λ field. view field.now) result ≡ given name.now (view value.now) }
{
    let Some(field) = value.get(name) else {
        return None;
    };
    if field.is_null() { None } else { Some(field) }
}

/// The text that a field is.
#[tactic(auto, unfolding(crate::specs::Fields::text_of))]
pub fn text_of<'a>(value: &'a Value, name: &str) -> Option<&'a str>
    ensures { option_map (λ text. text.now) result ≡ text_of name.now (view value.now) }
{
    value.get(name).and_then(Value::as_str)
}

/// The whole number that a field is.
#[tactic(auto, unfolding(crate::specs::Fields::whole_of))]
pub fn whole_of(value: &Value, name: &str) -> Option<u64>
    ensures { result ≡ whole_of name.now (view value.now) }
{
    value.get(name).and_then(Value::as_u64)
}

/// The values of a field that is an array; a field that is missing or null counts as an empty one.
#[tactic(auto, unfolding(crate::specs::Fields::list_of))]
pub fn list_of<'a>(value: &'a Value, name: &str) -> Option<&'a [Value]>
    ensures { option_map (λ items. map view items.now) result ≡ list_of name.now (view value.now) }
{
    match given(value, name) {
        Some(field) => items_of(field),
        None => Some(&[]),
    }
}

// The values of an array.
fn items_of(field: &Value) -> Option<&[Value]>
    ensures { option_map (λ items. map view items.now) result ≡ listed (Some (view field.now)) }
{
    match field.as_array() {
        Some(items) => Some(items.as_slice()),
        None => None,
    }
}

/// The text that a value is.
pub fn read_words(alloc: Global, value: &Value) -> Result<Words, MediaError>
    ensures { IsRead result (as_str (view value.now)) }
{
    match value.as_str() {
        Some(text) => Ok(Words::new(String::from_str(alloc, text)?)),
        None => Err(MediaError::Bad),
    }
}
