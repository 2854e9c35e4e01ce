//! An object of the configuration.
ghost use Rattle.std.specs.Prelude.{◌≡◌, Ok, Some, None, IfOk, IfErr, option_map, option_and_then};
ghost use Rattle.json.specs.Find as text;
ghost use Rattle.json.specs.Value.{value_view, members_view};
ghost use Rattle.serde_json.specs.View.{view};
ghost use Rattle.zot_config.specs.Fields.{name_of};
ghost use Rattle.zot_config.specs.Forms.{is_object as is_object_of};
ghost use Rattle.zot_config.specs.Found.{found as found_of};
ghost use Rattle.zot_config.specs.Object.{count_of, data_of, repeats as repeats_of, seen, single as single_of, value_at, wrong as wrong_of};
ghost use Rattle.zot_config.specs.Table.{part as part_of};
ghost use Rattle.zot_config.specs.Wrong.{Names, Refuses};

use crate::config_error::ConfigError;
use crate::field::Field;
use crate::found::{found, words};
use crate::wrong::Wrong;
use serde_json::Value;
use std::alloc::{AllocError, Global};

/// An object, or none: its value as `serde_json` reads it, and the same with each field as it stands in the text.
#[derive(Clone, Copy)]
pub(crate) struct Object<'a, 't> {
    value: Option<&'a Value>,
    text: Option<&'a json::Value<'t>>,
}

impl<'a, 't> Object<'a, 't> {
    /// The object that a whole text is.
    pub fn new(value: &'a Value, text: &'a json::Value<'t>) -> Self
        ensures { seen result ≡ record { value = Some (view value.now); text = Some (value_view text.now) } }
    {
        Object {
            value: Some(value),
            text: Some(text),
        }
    }

    /// Its value.
    pub fn value(&self) -> Option<&'a Value>
        ensures { data_of result ≡ (seen self.now).value }
    {
        self.value
    }

    // The value of a field.
    fn get(&self, field: Field) -> Option<&'a Value>
        ensures { data_of result ≡ value_at field (seen self.now) }
    {
        match self.value {
            Some(value) => value.get(field.name()),
            None => None,
        }
    }

    // The value of a field with each field as it stands in the text.
    fn text_at(&self, field: Field) -> Option<&'a json::Value<'t>>
        ensures { option_map (λ v. value_view v.now) result ≡ option_and_then (text.get (name_of field)) (seen self.now).text }
    {
        match self.text {
            Some(text) => text.get(field.name()),
            None => None,
        }
    }

    // Whether a field stands twice.
    fn repeats(&self, field: Field) -> bool
        ensures { result ≡ repeats_of field (seen self.now) }
    {
        match self.text {
            Some(json::Value::Object(members)) => count(members, field.name()) > 1,
            _ => false,
        }
    }

    /// The value of a field, which doesn't stand twice.
    pub fn single(&self, alloc: Global, field: Field) -> Result<Option<&'a Value>, ConfigError>
        ensures read { IfOk result (λ value. single_of field (seen self.now) ≡ Ok (data_of value)) }
        ensures wrong { IfErr result (Refuses (single_of field (seen self.now))) }
    {
        let value = self.get(field);
        if self.repeats(field) {
            return Err(wrong(alloc, field, value));
        }
        Ok(value)
    }

    /// The object in a field, which may be missing.
    pub fn part(&self, alloc: Global, field: Field) -> Result<Object<'a, 't>, ConfigError>
        ensures read { IfOk result (λ object. part_of field (seen self.now) ≡ Ok (seen object)) }
        ensures wrong { IfErr result (Refuses (part_of field (seen self.now))) }
    {
        let value = self.single(alloc, field)?;
        if !is_object(value) {
            return Err(wrong(alloc, field, value));
        }
        Ok(Object {
            value,
            text: self.text_at(field),
        })
    }
}

/// The field is wrong: with its path, and the text found there.
pub(crate) fn wrong(alloc: Global, field: Field, value: Option<&Value>) -> ConfigError
    ensures { Names result (wrong_of field (data_of value.entry)) }
{
    match wrong_at(alloc, field.path(), value) {
        Ok(wrong) => wrong.into_error(),
        Err(_) => ConfigError::NoMemory,
    }
}

/// The wrong field of that path, with the text found there. It fails only where memory runs out.
pub(crate) fn wrong_at(
    alloc: Global,
    path: &str,
    value: Option<&Value>,
) -> Result<Wrong, AllocError>
    ensures { IfOk result (λ wrong. wrong ≡ record { field = path.now; found = found_of (data_of value.entry) }) }
{
    Ok(Wrong {
        field: words(alloc, path)?,
        found: found(alloc, value)?,
    })
}

// Whether a value is an object, or isn't there.
fn is_object(value: Option<&Value>) -> bool
    ensures { result ≡ is_object_of (data_of value.entry) }
{
    match value {
        Some(value) => value.is_object(),
        None => true,
    }
}

// How many of an object's fields have this name.
fn count(members: &Vec<(&str, json::Value)>, name: &str) -> usize
    ensures { result ≡ count_of name.now (members_view members.now.items) }
{
    let mut count = 0;
    for member in members {
        if member.0 == name {
            count += 1;
        }
    }
    count
}
