//! The fields of messages.
ghost use Rattle.std.specs.Prelude.{◌≡◌, ◌++◌, ◌∷◌, [], OnOk};
ghost use Rattle.std.specs.Option.{option_copied};
ghost use Rattle.zot_spell.specs.Heads.{field_line, field_of, fields_text, length_field_of, name_text, type_fields, value_in};

use crate::field_name::FieldName;
use std::alloc::{AllocError, Global};
use zot_digest::Bytes;

/// A field of a message: its name and its value (RFC 9110, section 5).
#[derive(Drop)]
pub struct Field {
    pub name: Bytes,
    pub value: Bytes,
}

/// Adds the field of this name with this value to a list. It fails only where memory does.
#[tactic(auto, unfolding(crate::specs::Heads::field_of))]
pub fn add_field(
    alloc: Global,
    fields: &mut Vec<Field>,
    name: FieldName,
    value: &str,
) -> Result<(), AllocError>
    ensures { OnOk result (fields.new.items ≡ fields.old.items ++ (field_of name value.now ∷ [])) }
{
    let name = Bytes::new(Vec::from_slice(alloc, name.text().as_bytes())?);
    let value = Bytes::new(Vec::from_slice(alloc, value.as_bytes())?);
    fields.push(Field { name, value })?;
    Ok(())
}

/// Adds the field that names the media of a body, where there is one.
#[tactic(auto, unfolding(crate::specs::Heads::type_fields))]
pub fn add_type(
    alloc: Global,
    fields: &mut Vec<Field>,
    media: Option<&str>,
) -> Result<(), AllocError>
    ensures { OnOk result (fields.new.items ≡ fields.old.items ++ type_fields (option_copied media.entry)) }
{
    match media {
        Some(media) => add_field(alloc, fields, FieldName::ContentType, media),
        None => Ok(()),
    }
}

/// Adds the field that names the size of a body in bytes.
#[tactic(auto, unfolding(crate::specs::Heads::length_field_of))]
pub fn add_length(alloc: Global, fields: &mut Vec<Field>, size: u64) -> Result<(), AllocError>
    ensures { OnOk result (fields.new.items ≡ fields.old.items ++ (length_field_of size ∷ [])) }
{
    let size = size.to_string(alloc)?;
    add_field(alloc, fields, FieldName::ContentLength, size.as_str())
}

/// Adds the lines of fields, and the empty line after them.
pub fn push_fields(out: &mut Vec<u8>, fields: &[Field]) -> Result<(), AllocError>
    ensures { OnOk result (out.new.items ≡ out.old.items ++ fields_text fields.now) }
{
    for field in fields {
        push_field_line(out, field)?;
    }
    out.extend_from_slice(b"\r\n".as_slice())
}

// Adds the line of a field.
fn push_field_line(out: &mut Vec<u8>, field: &Field) -> Result<(), AllocError>
    ensures { OnOk result (out.new.items ≡ out.old.items ++ field_line field.now) }
{
    out.extend_from_slice(field.name.as_slice())?;
    out.extend_from_slice(b": ".as_slice())?;
    out.extend_from_slice(field.value.as_slice())?;
    out.extend_from_slice(b"\r\n".as_slice())
}

/// The value of the first field of this name, where there is one. Takes no memory.
pub fn value_in<'a>(name: FieldName, fields: &'a [Field]) -> Option<&'a [u8]>
    ensures { option_copied result ≡ value_in (name_text name) fields.now }
{
    let text = name.text();
    for field in fields {
        if field.name.as_slice() == text.as_bytes() {
            return Some(field.value.as_slice());
        }
    }
    None
}
