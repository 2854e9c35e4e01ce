//! The part `storage` of a configuration.
ghost use Rattle.zot_config.specs.Forms.{dedupe_form as dedupe_form_of, number_form as number_form_of, root_form as root_form_of};
ghost use Rattle.zot_config.specs.Object.{read_field, seen};
ghost use Rattle.zot_config.specs.Table.{storage_of};
ghost use Rattle.zot_config.specs.Wrong.{Reads};
ghost use Rattle.zot_config.specs.declared.field.Field.TheVariants as fields;

use crate::config_error::ConfigError;
use crate::field::Field;
use crate::forms::{dedupe_form, number_form, root_form};
use crate::found::words;
use crate::object::{Object, wrong};
use std::alloc::Global;
use zot_digest::Words;

/// How long a repository's garbage is kept where nothing is said, in seconds.
const DELAY: u64 = 3600;

/// Where and how the cluster stores.
#[derive(Drop)]
pub(crate) struct Storage {
    pub root: Words,
    pub dedupe: bool,
    pub delay: u64,
}

impl Storage {
    /// What an object says of it.
    pub fn read(alloc: Global, object: &Object) -> Result<Storage, ConfigError>
        ensures { Reads result (storage_of (seen object.now)) }
    {
        let root = root(alloc, object)?;
        let dedupe = dedupe(alloc, object)?;
        let delay = number(alloc, object, Field::GcDelay, DELAY)?;
        Ok(Storage {
            root,
            dedupe,
            delay,
        })
    }
}

// The root of the storage.
fn root(alloc: Global, object: &Object) -> Result<Words, ConfigError>
    ensures { Reads result (read_field fields.Root root_form_of (seen object.now)) }
{
    let value = object.single(alloc, Field::Root)?;
    match root_form(value) {
        Some(text) => Ok(words(alloc, text)?),
        None => Err(wrong(alloc, Field::Root, value)),
    }
}

// Whether equal blobs are stored once.
fn dedupe(alloc: Global, object: &Object) -> Result<bool, ConfigError>
    ensures { Reads result (read_field fields.Dedupe dedupe_form_of (seen object.now)) }
{
    let value = object.single(alloc, Field::Dedupe)?;
    match dedupe_form(value) {
        Some(dedupe) => Ok(dedupe),
        None => Err(wrong(alloc, Field::Dedupe, value)),
    }
}

/// The number in a field, or this one where it is missing.
pub(crate) fn number(
    alloc: Global,
    object: &Object,
    field: Field,
    default: u64,
) -> Result<u64, ConfigError>
    ensures { Reads result (read_field field (number_form_of default) (seen object.now)) }
{
    let value = object.single(alloc, field)?;
    match number_form(value, default) {
        Some(number) => Ok(number),
        None => Err(wrong(alloc, field, value)),
    }
}
