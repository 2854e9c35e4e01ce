//! The part `cluster` of a configuration.
ghost use Rattle.std.specs.Prelude.{◌≡◌, ◌<◌, ◌^◌, ◌++◌, ◌∷◌, [], IfOk, length, option_and_then};
ghost use Rattle.std.specs.List.{list_any};
ghost use Rattle.std.specs.Str.{bytes_eq};
ghost use Rattle.std.specs.String.{string_bytes};
ghost use Rattle.serde_json.specs.Find.{as_str};
ghost use Rattle.serde_json.specs.View.{items_view, view};
ghost use Rattle.zot_config.specs.Forms.{key_form as key_form_of, members_form as members_form_of};
ghost use Rattle.zot_config.specs.Object.{read_field, seen};
ghost use Rattle.zot_config.specs.Table.{cluster_of, member_of, member_path as member_path_of, members_of, new_address as new_address_of};
ghost use Rattle.zot_config.specs.Found.{found as found_of};
ghost use Rattle.zot_config.specs.Wrong.{Names, Reads, after};
ghost use Rattle.zot_config.specs.declared.field.Field.TheVariants as fields;

use crate::address::{Address, is_address};
use crate::address_list::AddressList;
use crate::config_error::ConfigError;
use crate::field::Field;
use crate::forms::{key_form, members_form};
use crate::found::words;
use crate::object::{Object, wrong, wrong_at};
use serde_json::Value;
use std::alloc::{AllocError, Global};

/// Who the cluster's members are, and the key of the hash that gives a repository its owner.
#[derive(Drop)]
pub(crate) struct Cluster {
    pub members: AddressList,
    pub key: [u8; 16],
}

impl Cluster {
    /// What an object says of it.
    pub fn read(alloc: Global, object: &Object) -> Result<Cluster, ConfigError>
        ensures { Reads result (cluster_of (seen object.now)) }
    {
        let members = members(alloc, object)?;
        let key = key(alloc, object)?;
        Ok(Cluster { members, key })
    }
}

// The key of the hash.
fn key(alloc: Global, object: &Object) -> Result<[u8; 16], ConfigError>
    ensures { Reads result (read_field fields.HashKey key_form_of (seen object.now)) }
{
    let value = object.single(alloc, Field::HashKey)?;
    match key_form(value) {
        Some(key) => Ok(key),
        None => Err(wrong(alloc, Field::HashKey, value)),
    }
}

// The members.
fn members(alloc: Global, object: &Object) -> Result<AddressList, ConfigError>
    ensures { Reads result (after (read_field fields.Members members_form_of (seen object.now)) (members_of [])) }
{
    let value = object.single(alloc, Field::Members)?;
    match members_form(value) {
        Some(items) => addresses(alloc, items),
        None => Err(wrong(alloc, Field::Members, value)),
    }
}

// The addresses in a list, of which no two are equal.
fn addresses(alloc: Global, items: &[Value]) -> Result<AddressList, ConfigError>
    ensures { Reads result (members_of [] (items_view items.now)) }
{
    let mut earlier = Vec::new(alloc);
    for item in items {
        let address = member(alloc, &earlier, item)?;
        if earlier.push(address).is_err() {
            return Err(ConfigError::NoMemory);
        }
    }
    Ok(AddressList::new(earlier))
}

// The member after the earlier ones.
fn member(alloc: Global, earlier: &[Address], item: &Value) -> Result<Address, ConfigError>
    ensures { Reads result (member_of earlier.now (view item.now)) }
{
    match new_address(alloc, earlier, item)? {
        Some(address) => Ok(address),
        None => Err(wrong_member(alloc, earlier.len(), item)),
    }
}

// The address that a value is, where it is one that no earlier one equals.
fn new_address(
    alloc: Global,
    earlier: &[Address],
    item: &Value,
) -> Result<Option<Address>, AllocError>
    ensures { IfOk result (λ address. address ≡ option_and_then (new_address_of earlier.now) (as_str (view item.now))) }
{
    match item.as_str() {
        Some(text) if is_address(text) && !is_among(text, earlier) => {
            Ok(Some(Address::new(words(alloc, text)?)))
        }
        _ => Ok(None),
    }
}

// Whether an address of the list is this text.
fn is_among(text: &str, addresses: &[Address]) -> bool
    ensures { result ≡ list_any (bytes_eq text.now) addresses.now }
{
    addresses.iter().any(|address| address.has_text(text))
}

// The member at this place is wrong.
fn wrong_member(alloc: Global, place: usize, item: &Value) -> ConfigError
    ensures { Names result (record { field = member_path_of place; found = found_of (Some (view item.now)) }) }
{
    let Ok(path) = member_path(alloc, place) else {
        return ConfigError::NoMemory;
    };
    match wrong_at(alloc, path.as_str(), Some(item)) {
        Ok(wrong) => wrong.into_error(),
        Err(_) => ConfigError::NoMemory,
    }
}

// The path of the member at this place.
#[tactic(auto, unfolding(crate::specs::Table::member_path))]
fn member_path(alloc: Global, place: usize) -> Result<String, AllocError>
    ensures { IfOk result (λ path. string_bytes path ≡ member_path_of place) }
{
    format!(in alloc; "cluster.members[{place}]")
}
