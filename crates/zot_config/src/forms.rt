//! The forms of the fields: what a value, or its lack, stands for, or none where it is wrong.
ghost use Rattle.std.specs.Prelude.{◌≡◌, option_and_then, option_map};
ghost use Rattle.serde_json.specs.Find.{as_array, as_str};
ghost use Rattle.serde_json.specs.View.{items_view};
ghost use Rattle.zot_config.specs.Forms.{counted as counted_of, dedupe_form as dedupe_form_of, is_count as is_count_of, key_form as key_form_of, members_form as members_form_of, number_form as number_form_of, root_form as root_form_of};
ghost use Rattle.zot_config.specs.Object.{data_of};

use serde_json::Value;

/// The greatest number that a field may have.
const GREATEST: u64 = 4_294_967_295;

/// The most members that a cluster may have.
const MEMBERS: usize = 8;

/// A text that isn't empty.
pub(crate) fn root_form(value: Option<&Value>) -> Option<&str>
    ensures { option_map (λ text. text.now) result ≡ root_form_of (data_of value.entry) }
{
    match text_form(value) {
        Some(text) if !text.is_empty() => Some(text),
        _ => None,
    }
}

// A text.
fn text_form(value: Option<&Value>) -> Option<&str>
    ensures { option_map (λ text. text.now) result ≡ option_and_then as_str (data_of value.entry) }
{
    match value {
        Some(value) => value.as_str(),
        None => None,
    }
}

/// True or false; true where it is missing.
pub(crate) fn dedupe_form(value: Option<&Value>) -> Option<bool>
    ensures { result ≡ dedupe_form_of (data_of value.entry) }
{
    match value {
        Some(value) => value.as_bool(),
        None => Some(true),
    }
}

/// A whole number from 0 to 4,294,967,295; the given one where it is missing.
pub(crate) fn number_form(value: Option<&Value>, default: u64) -> Option<u64>
    ensures { result ≡ number_form_of default (data_of value.entry) }
{
    let Some(value) = value else {
        return Some(default);
    };
    match value.as_u64() {
        Some(number) if number <= GREATEST => Some(number),
        _ => None,
    }
}

/// A text of 16 bytes.
pub(crate) fn key_form(value: Option<&Value>) -> Option<[u8; 16]>
    ensures { result ≡ key_form_of (data_of value.entry) }
{
    match text_form(value) {
        Some(text) => <[u8; 16]>::try_from(text.as_bytes()).ok(),
        None => None,
    }
}

/// A list of 1 to 8 elements.
pub(crate) fn members_form(value: Option<&Value>) -> Option<&[Value]>
    ensures { option_map (λ items. items_view items.now) result ≡ members_form_of (data_of value.entry) }
{
    match list_form(value) {
        Some(items) => counted(items.as_slice()),
        None => None,
    }
}

// The list, where it has 1 to 8 elements.
fn counted(items: &[Value]) -> Option<&[Value]>
    ensures { option_map (λ items. items_view items.now) result ≡ counted_of (items_view items.now) }
{
    if is_count(items.len()) {
        Some(items)
    } else {
        None
    }
}

// Whether a cluster may have so many members.
fn is_count(count: usize) -> bool
    ensures { result ≡ is_count_of count }
{
    1 <= count && count <= MEMBERS
}

// A list.
fn list_form(value: Option<&Value>) -> Option<&Vec<Value>>
    ensures { option_map (λ items. items_view items.now.items) result ≡ option_and_then as_array (data_of value.entry) }
{
    match value {
        Some(value) => value.as_array(),
        None => None,
    }
}
