//! The texts of what is found in the place of a field.
ghost use Rattle.std.specs.Prelude.{◌≡◌, IfOk};
ghost use Rattle.serde_json.specs.View.{view, items_view, members_view};
ghost use Rattle.serde_json.specs.Written.{has_float as has_float_of, items_have_float as items_have_float_of, members_have_float as members_have_float_of};
ghost use Rattle.zot_config.specs.Found.{found as found_of, json_text as json_text_of};
ghost use Rattle.zot_config.specs.Object.{data_of};

use serde_json::{Map, Value};
use std::alloc::{AllocError, Global};
use zot_digest::Words;

/// The text of a value, or `missing` where it isn't there. It fails only where memory runs out.
#[tactic(auto, unfolding(crate::specs::Found::missing))]
pub(crate) fn found(alloc: Global, value: Option<&Value>) -> Result<Words, AllocError>
    ensures { IfOk result (λ text. text ≡ found_of (data_of value.entry)) }
{
    match value {
        Some(value) => text_of(alloc, value),
        None => words(alloc, "missing"),
    }
}

/// An owned text. It fails only where memory runs out.
pub(crate) fn words(alloc: Global, text: &str) -> Result<Words, AllocError>
    ensures { IfOk result (λ words. words ≡ text.now) }
{
    Ok(Words::new(String::from_str(alloc, text)?))
}

// A text as it stands, and else the value's JSON.
fn text_of(alloc: Global, value: &Value) -> Result<Words, AllocError>
    ensures { IfOk result (λ text. text ≡ found_of (Some (view value.now))) }
{
    match value.as_str() {
        Some(text) => words(alloc, text),
        None => json_text(alloc, value),
    }
}

// A value's JSON, where all its numbers are whole.
#[tactic(auto, unfolding(crate::specs::Found::json_text))]
fn json_text(alloc: Global, value: &Value) -> Result<Words, AllocError>
    ensures { IfOk result (λ text. text ≡ json_text_of (view value.now)) }
{
    if has_float(value) {
        return words(alloc, "not whole");
    }
    Ok(Words::new(value.to_string(alloc)?))
}

// Whether a value has a number that isn't whole.
#[cycle(float)]
fn has_float(value: &Value) -> bool
    ensures { result ≡ has_float_of (view value.now) }
{
    match value {
        Value::Number(number) => number.is_f64(),
        Value::Array(items) => items_have_float(items),
        Value::Object(members) => members_have_float(members),
        Value::Null | Value::Bool(_) | Value::String(_) => false,
    }
}

// Whether an item has such a number.
#[cycle(float)]
fn items_have_float(items: &Vec<Value>) -> bool
    ensures { result ≡ items_have_float_of (items_view items.now.items) }
{
    for item in items {
        if has_float(item) {
            return true;
        }
    }
    false
}

// Whether a field's value has such a number.
#[cycle(float)]
fn members_have_float(members: &Map<String, Value>) -> bool
    ensures { result ≡ members_have_float_of (members_view members.now.entries) }
{
    for (_, member) in members.iter() {
        if has_float(member) {
            return true;
        }
    }
    false
}
