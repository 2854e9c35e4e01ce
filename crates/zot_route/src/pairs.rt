//! The values of a query.
ghost use Rattle.std.specs.Prelude.{◌≡◌, IfOk};
ghost use Rattle.std.specs.Str.{bytes_eq};
ghost use Rattle.zot_route.specs.Query.{text_of, value_of};

use crate::decoded_text::DecodedText;
use form_urlencoded::{decode, raw_pairs};
use std::alloc::{AllocError, Global};

/// The first value of a key in a query, decoded (URL Standard, section 5). It fails only where memory does.
pub fn value<'a>(
    alloc: Global,
    query: &'a [u8],
    key: &str,
) -> Result<Option<DecodedText<'a>>, AllocError>
    ensures { IfOk result (λ value. value ≡ value_of key.now query.now) }
{
    for (name, value) in raw_pairs(query) {
        if is_key(alloc, name, key)? {
            return Ok(Some(read_value(alloc, value)?));
        }
    }
    Ok(None)
}

// Whether the encoded bytes stand for the key.
fn is_key(alloc: Global, name: &[u8], key: &str) -> Result<bool, AllocError>
    ensures { IfOk result (λ is. is ≡ bytes_eq (text_of name.now) key.now) }
{
    let text = decode(alloc, name)?;
    Ok(text.as_str() == key)
}

// The text that the encoded bytes stand for.
fn read_value<'a>(alloc: Global, value: &'a [u8]) -> Result<DecodedText<'a>, AllocError>
    ensures { IfOk result (λ text. text ≡ text_of value.now) }
{
    let text = decode(alloc, value)?;
    Ok(DecodedText::new(text))
}
