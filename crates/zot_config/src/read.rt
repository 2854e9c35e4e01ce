//! Reading a configuration.
ghost use Rattle.std.specs.Prelude.{◌≡◌, Some, codes, IfErr, IfOk};
ghost use Rattle.json.specs.Value.{value_view};
ghost use Rattle.serde_json.specs.View.{view};
ghost use Rattle.zot_config.specs.Found.{found as found_of};
ghost use Rattle.zot_config.specs.Object.{seen};
ghost use Rattle.zot_config.specs.Table.{Declines, IsJson, IsRead, document_of, not_json as not_json_of, settings_of};
ghost use Rattle.zot_config.specs.Wrong.{IfTold, Names, Reads};

use crate::cluster::Cluster;
use crate::config::Config;
use crate::config_error::ConfigError;
use crate::field::Field;
use crate::found::words;
use crate::object::{Object, wrong_at};
use crate::storage::{Storage, number};
use crate::unknown::unknown;
use crate::wrong::Wrong;
use json::Scratch;
use serde_json::Value;
use std::alloc::{AllocError, Global};

/// The configuration that the bytes stand for, or the first wrong field. The order in which fields are checked, and what is found in them, is that of the definition `IsRead`. It fails otherwise only where memory runs out.
pub fn read_config(alloc: Global, bytes: &[u8]) -> Result<Config, ConfigError>
    ensures { IfTold result (IsRead bytes.now) }
{
    let value = value_of(alloc, bytes)?;
    let mut scratch = Scratch::new(alloc);
    read_text(alloc, bytes, &value, &mut scratch)
}

// The value that the bytes are, as `serde_json` reads them.
fn value_of(alloc: Global, bytes: &[u8]) -> Result<Value, ConfigError>
    ensures value { IfOk result (λ value. IsJson bytes.now (view value)) }
    ensures declined { IfErr result (Declines bytes.now) }
{
    match Value::from_slice(alloc, bytes) {
        Ok(value) => Ok(value),
        Err(error) if error.is_memory() => Err(ConfigError::NoMemory),
        Err(_) => Err(not_json(alloc)),
    }
}

// The configuration of a text with that value. Such a text has a tree (`values_have_trees`), so it is memory that is lacking where none is read.
fn read_text<'t>(
    alloc: Global,
    bytes: &'t [u8],
    value: &Value,
    scratch: &'t mut Scratch,
) -> Result<Config, ConfigError>
    requires { IsJson bytes.now (view value.now) }
    ensures { IfTold result (IsRead bytes.now) }
{
    match json::Value::from_slice(alloc, bytes, scratch) {
        Ok(text) => document(alloc, value, &text),
        Err(_) => Err(ConfigError::NoMemory),
    }
}

// The bytes aren't JSON.
#[tactic(auto, unfolding(crate::specs::Table::not_json))]
fn not_json(alloc: Global) -> ConfigError
    ensures { Names result not_json_of }
{
    match named(alloc, ".", "not JSON") {
        Ok(wrong) => wrong.into_error(),
        Err(_) => ConfigError::NoMemory,
    }
}

// A wrong field of these texts.
fn named(alloc: Global, field: &str, found: &str) -> Result<Wrong, AllocError>
    ensures { IfOk result (λ wrong. wrong ≡ record { field = field.now; found = found.now }) }
{
    Ok(Wrong {
        field: words(alloc, field)?,
        found: words(alloc, found)?,
    })
}

// The configuration of a whole text, which has to be an object.
fn document(alloc: Global, value: &Value, text: &json::Value) -> Result<Config, ConfigError>
    ensures { Reads result (document_of (view value.now) (value_view text.now)) }
{
    if value.is_object() {
        config(alloc, &Object::new(value, text))
    } else {
        Err(not_object(alloc, value))
    }
}

// The whole text isn't an object.
fn not_object(alloc: Global, value: &Value) -> ConfigError
    ensures { Names result (record { field = codes "."; found = found_of (Some (view value.now)) }) }
{
    match wrong_at(alloc, ".", Some(value)) {
        Ok(wrong) => wrong.into_error(),
        Err(_) => ConfigError::NoMemory,
    }
}

// The configuration of the whole object.
fn config(alloc: Global, whole: &Object) -> Result<Config, ConfigError>
    ensures { Reads result (settings_of (seen whole.now)) }
{
    let in_storage = whole.part(alloc, Field::Storage)?;
    let storage = Storage::read(alloc, &in_storage)?;
    let in_cluster = whole.part(alloc, Field::Cluster)?;
    let cluster = Cluster::read(alloc, &in_cluster)?;
    let rounds = number(alloc, whole, Field::Rounds, 0)?;
    match unknown(alloc, whole, &in_storage, &in_cluster)? {
        Some(wrong) => Err(wrong.into_error()),
        None => Ok(Config::new(storage, cluster, rounds)),
    }
}
