//! The JSON texts that replies have as bodies.
ghost use Rattle.std.specs.Prelude.{◌≡◌, Some, None, map, IfOk, option_map, string_bytes};
ghost use Rattle.serde_json.specs.Data.{array, string};
ghost use Rattle.serde_json.specs.View.{items_of, view};
ghost use Rattle.zot_spell.specs.Bodies.{detail_text, error_body, errors_value, page_body, page_value};

use serde_json::{Value, json};
use std::alloc::{AllocError, Global};
use zot_model::{Code, Detail};
use zot_names::Tag;

/// The body of a refusal.
#[tactic(auto, unfolding(crate::specs::Bodies::error_body, crate::specs::Bodies::errors_value))]
pub fn error_body(alloc: Global, code: Code, detail: &Detail) -> Result<String, AllocError>
    ensures { IfOk result (λ body. string_bytes body ≡ error_body code detail.now) }
{
    let detail = detail_text(alloc, detail)?;
    let value = match &detail {
        Some(detail) => detailed(alloc, code.text(), detail.as_str(), code.message())?,
        None => undetailed(alloc, code.text(), code.message())?,
    };
    value.to_string(alloc)
}

// The object of one error with a detail.
#[tactic(auto, unfolding(crate::specs::Bodies::errors_value))]
fn detailed(alloc: Global, code: &str, detail: &str, message: &str) -> Result<Value, AllocError>
    ensures { IfOk result (λ value. view value ≡ errors_value code.now (Some detail.now) message.now) }
{
    json!(in alloc; {"errors": [{"code": code, "detail": detail, "message": message}]})
}

// The object of one error without a detail.
#[tactic(auto, unfolding(crate::specs::Bodies::errors_value))]
fn undetailed(alloc: Global, code: &str, message: &str) -> Result<Value, AllocError>
    ensures { IfOk result (λ value. view value ≡ errors_value code.now None message.now) }
{
    json!(in alloc; {"errors": [{"code": code, "message": message}]})
}

// What the body says beside the code: a digest, or that one digest was wanted and another one found.
#[tactic(auto, unfolding(crate::specs::Bodies::detail_text))]
fn detail_text(alloc: Global, detail: &Detail) -> Result<Option<String>, AllocError>
    ensures { IfOk result (λ text. option_map string_bytes text ≡ detail_text detail.now) }
{
    match detail {
        Detail::Missing(digest) => Ok(Some(digest.text(alloc)?)),
        Detail::Differ(wanted, found) => {
            let wanted = wanted.text(alloc)?;
            let found = found.text(alloc)?;
            let text = ["expected ", wanted.as_str(), " found ", found.as_str()].concat(alloc)?;
            Ok(Some(text))
        }
        _ => Ok(None),
    }
}

/// The body of a page of tags.
#[tactic(auto, using(crate::proofs::BodyLemmas::page_plain), unfolding(crate::specs::Bodies::page_body))]
pub fn page_body(alloc: Global, name: &str, tags: &[Tag]) -> Result<String, AllocError>
    ensures { IfOk result (λ body. string_bytes body ≡ page_body name.now tags.now) }
{
    let value = page_value(alloc, name, tags)?;
    value.to_string(alloc)
}

// The object of a page of tags.
#[tactic(auto, unfolding(crate::specs::Bodies::page_value))]
fn page_value(alloc: Global, name: &str, tags: &[Tag]) -> Result<Value, AllocError>
    ensures { IfOk result (λ value. view value ≡ page_value name.now tags.now) }
{
    let texts = texts_of(alloc, tags)?;
    json!(in alloc; {"name": name, "tags": texts})
}

// The tags as an array of texts.
fn texts_of(alloc: Global, tags: &[Tag]) -> Result<Value, AllocError>
    ensures { IfOk result (λ value. view value ≡ array (items_of (map string tags.now))) }
{
    let mut texts = Vec::new(alloc);
    for tag in tags {
        texts.push(Value::try_from_str(alloc, tag.as_str())?)?;
    }
    Ok(Value::Array(texts))
}
