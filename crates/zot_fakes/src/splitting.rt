//! Objects given to the parts of a cluster's storage.
ghost use Rattle.std.specs.Prelude.{◌≡◌, ◌*◌, IfOk, map as each, string_bytes};
ghost use Rattle.zot_fakes.specs.Given.{objects_of};
ghost use Rattle.zot_fakes.specs.Owners.{HasMembers};
ghost use Rattle.zot_fakes.specs.Split.{AreParts, IsPartOf, row_part, shard_part};
ghost use Rattle.zot_siphash.specs.Owners.{AreMembers};

use crate::memory_store::MemoryStore;
use crate::owners::{Part, SHARDS, owns};
use std::alloc::{AllocError, Global};
use zot_outside::Parts;

/// How many rows a member has.
const ROWS: u32 = 8;

/// The parts of a cluster's storage with these objects, each of which lies in just the part that owns its path; of those with one path the last counts. An object whose path no part owns is in none. No call fails. It fails only where memory runs out.
pub fn split_parts(
    alloc: Global,
    objects: Vec<(String, Vec<u8>)>,
    key: &[u8; 16],
    members: u32,
) -> Result<Parts<MemoryStore>, AllocError>
    requires { AreMembers members }
    ensures rows { IfOk result (λ parts. AreParts (row_part key.now members) (members * 8) (objects_of (each (λ o. (string_bytes o.0, o.1.items)) objects.items)) parts.rows.items) }
    ensures shards { IfOk result (λ parts. AreParts shard_part 16 (objects_of (each (λ o. (string_bytes o.0, o.1.items)) objects.items)) parts.shards.items) }
{
    Ok(Parts {
        rows: rows(alloc, objects.as_slice(), key, members)?,
        shards: shards(alloc, objects.as_slice())?,
    })
}

// The parts of the rows.
fn rows(
    alloc: Global,
    objects: &[(String, Vec<u8>)],
    key: &[u8; 16],
    members: u32,
) -> Result<Vec<MemoryStore>, AllocError>
    requires { AreMembers members }
    ensures { IfOk result (λ rows. AreParts (row_part key.now members) (members * 8) (objects_of (each (λ o. (string_bytes o.0, o.1.items)) objects.now)) rows.items) }
{
    let mut rows = Vec::new(alloc);
    for row in 0..members * ROWS {
        let part = Part::Row {
            key: *key,
            members,
            row,
        };
        rows.push(part_of(alloc, objects, &part)?)?;
    }
    Ok(rows)
}

// The parts of the shards.
fn shards(alloc: Global, objects: &[(String, Vec<u8>)]) -> Result<Vec<MemoryStore>, AllocError>
    ensures { IfOk result (λ shards. AreParts shard_part 16 (objects_of (each (λ o. (string_bytes o.0, o.1.items)) objects.now)) shards.items) }
{
    let mut shards = Vec::new(alloc);
    for shard in 0..SHARDS {
        shards.push(part_of(alloc, objects, &Part::Shard(shard))?)?;
    }
    Ok(shards)
}

// A part: a store of the objects whose paths it owns.
fn part_of(
    alloc: Global,
    objects: &[(String, Vec<u8>)],
    part: &Part,
) -> Result<MemoryStore, AllocError>
    requires { HasMembers part.now }
    ensures { IfOk result (λ store. IsPartOf part.now (objects_of (each (λ o. (string_bytes o.0, o.1.items)) objects.now)) store) }
{
    let mut own = Vec::new(alloc);
    for object in objects {
        if owns(alloc, part, object.0.as_str())? {
            own.push(copy_of(alloc, object)?)?;
        }
    }
    MemoryStore::new(alloc, own, Vec::new(alloc))
}

// A copy of an object.
fn copy_of(alloc: Global, object: &(String, Vec<u8>)) -> Result<(String, Vec<u8>), AllocError>
    ensures { IfOk result (λ copy. (string_bytes copy.0 ≡ string_bytes object.now.0) × (copy.1.items ≡ object.now.1.items)) }
{
    Ok((
        String::from_str(alloc, object.0.as_str())?,
        Vec::from_slice(alloc, object.1.as_slice())?,
    ))
}
