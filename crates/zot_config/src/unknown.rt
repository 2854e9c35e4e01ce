//! The fields that no configuration has.
ghost use Rattle.std.specs.Prelude.{◌≡◌, ◌++◌, IfOk, option_map, string_bytes};
ghost use Rattle.std.specs.Cmp.Lexicographic.{slice_cmp};
ghost use Rattle.std.specs.Ordering.{is_lt, nat_cmp};
ghost use Rattle.serde_json.specs.View.{members_view, view};
ghost use Rattle.zot_config.specs.Object.{data_of, seen};
ghost use Rattle.zot_config.specs.Unknown.{first_unknown as first_unknown_of, is_known as is_known_of, least as least_of, unknown as unknown_of, unknown_in as unknown_in_of};

use crate::field::Field;
use crate::object::{Object, wrong_at};
use crate::wrong::Wrong;
use serde_json::{Map, Value};
use std::alloc::{AllocError, Global};

/// The unknown field of the least path, if there is one. It fails only where memory runs out.
pub(crate) fn unknown(
    alloc: Global,
    whole: &Object,
    storage: &Object,
    cluster: &Object,
) -> Result<Option<Wrong>, AllocError>
    ensures { IfOk result (λ wrong. wrong ≡ unknown_of (seen whole.now) (seen storage.now) (seen cluster.now)) }
{
    let in_whole = unknown_in(
        alloc,
        "",
        &[Field::Storage, Field::Cluster, Field::Rounds],
        whole.value(),
    )?;
    let in_storage = unknown_in(
        alloc,
        "storage.",
        &[Field::Root, Field::Dedupe, Field::GcDelay],
        storage.value(),
    )?;
    let in_cluster = unknown_in(
        alloc,
        "cluster.",
        &[Field::Members, Field::HashKey],
        cluster.value(),
    )?;
    Ok(least(in_whole, least(in_storage, in_cluster)))
}

// The one of the lesser path.
fn least(one: Option<Wrong>, other: Option<Wrong>) -> Option<Wrong>
    ensures { result ≡ least_of one other }
{
    match (one, other) {
        (Some(one), Some(other)) => Some(if other.field < one.field { other } else { one }),
        (Some(one), None) => Some(one),
        (None, other) => other,
    }
}

// The first unknown field of an object, after the object's path.
fn unknown_in(
    alloc: Global,
    path: &str,
    known: &[Field],
    object: Option<&Value>,
) -> Result<Option<Wrong>, AllocError>
    ensures { IfOk result (λ wrong. wrong ≡ unknown_in_of path.now known.now (data_of object.entry)) }
{
    let Some(members) = object.and_then(Value::as_object) else {
        return Ok(None);
    };
    let Some(field) = first_unknown(known, members) else {
        return Ok(None);
    };
    let whole = joined(alloc, path, field.0.as_str())?;
    Ok(Some(wrong_at(alloc, whole.as_str(), Some(field.1))?))
}

// Two texts, one after the other.
fn joined(alloc: Global, one: &str, other: &str) -> Result<String, AllocError>
    ensures { IfOk result (λ text. string_bytes text ≡ one.now ++ other.now) }
{
    let mut text = String::from_str(alloc, one)?;
    text.push_str(other)?;
    Ok(text)
}

// The first field of an object that isn't known.
fn first_unknown<'v>(
    known: &[Field],
    members: &'v Map<String, Value>,
) -> Option<(&'v String, &'v Value)>
    ensures { option_map (λ m. (string_bytes m.0.now, view m.1.now)) result ≡ first_unknown_of known.now (members_view members.now.entries) }
{
    for (name, member) in members.iter() {
        if !is_known(known, name.as_str()) {
            return Some((name, member));
        }
    }
    None
}

// Whether a field of the list has the name.
fn is_known(known: &[Field], name: &str) -> bool
    ensures { result ≡ is_known_of known.now name.now }
{
    known.iter().any(|field| field.is_named(name))
}
