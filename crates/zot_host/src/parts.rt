//! The parts of a cluster's storage, taken from a host and given back.
ghost use Rattle.std.specs.Prelude.{◌≡◌, ℕ, ◌*◌, ◌+◌, ◌++◌, IfOk, OnOk, length};
ghost use Rattle.zot_host.specs.Causes.{HasHostCause, OnMissing};
ghost use Rattle.zot_host.specs.Parts.{HandsOut, HasMoreRoom, KeepsRoom, TakesBack, UsesRoom};

use crate::host::Host;
use crate::host_error::{HostError, HostResult};
use std::alloc::Global;
use zot_outside::Parts;

/// How many rows a member has.
const ROWS: u64 = 8;

/// How many shards a cluster has.
const SHARDS: u64 = 16;

/// The parts of a cluster's storage at a root: first those of the rows, eight a member, then those of the shards, of which there are sixteen. After an error the parts that were taken are let go.
pub fn take_parts<H: Host>(
    alloc: Global,
    host: &mut H,
    root: &str,
    members: u32,
) -> HostResult<Parts<H::S>>
    ensures cause { HasHostCause (H.faults host.old) (H.faults host.new) result }
    ensures rows { IfOk result (λ parts. length parts.rows.items ≡ members * 8) }
    ensures shards { IfOk result (λ parts. length parts.shards.items ≡ 16) }
    ensures ok { IfOk result (λ parts. HandsOut (H.parts host.old) (parts.rows.items ++ parts.shards.items) (H.parts host.new)) }
    ensures missing { OnMissing result ⊥ }
    ensures files { H.files host.new ≡ H.files host.old }
    ensures kept { H.kept host.new ≡ H.kept host.old }
    ensures room { KeepsRoom (H.room host.old) (H.room host.new) }
    ensures more { IfOk result (λ parts. HasMoreRoom (H.room host.old) (length parts.rows.items + length parts.shards.items) (H.room host.new)) }
    ensures all { IfOk result (λ parts. H.room host.new (length parts.rows.items + length parts.shards.items)) }
    ensures moment { H.moment host.new ≡ H.moment host.old }
{
    let rows = take_some(alloc, host, root, members as u64 * ROWS)?;
    let shards = take_some(alloc, host, root, SHARDS)?;
    Ok(Parts { rows, shards })
}

// So many parts of the storage at a root.
fn take_some<H: Host>(alloc: Global, host: &mut H, root: &str, count: u64) -> HostResult<Vec<H::S>>
    ensures cause { HasHostCause (H.faults host.old) (H.faults host.new) result }
    ensures many { IfOk result (λ parts. length parts.items ≡ count) }
    ensures ok { IfOk result (λ parts. HandsOut (H.parts host.old) parts.items (H.parts host.new)) }
    ensures missing { OnMissing result ⊥ }
    ensures files { H.files host.new ≡ H.files host.old }
    ensures kept { H.kept host.new ≡ H.kept host.old }
    ensures room { KeepsRoom (H.room host.old) (H.room host.new) }
    ensures more { OnOk result (HasMoreRoom (H.room host.old) count (H.room host.new)) }
    ensures moment { H.moment host.new ≡ H.moment host.old }
{
    let mut parts = Vec::new(alloc);
    for _ in 0..count {
        let part = host.part(alloc, root)?;
        if parts.push(part).is_err() {
            return Err(HostError::NoMemory);
        }
    }
    Ok(parts)
}

/// Gives the parts of a cluster's storage back, those of the rows and then those of the shards, each in their order. There is room for them. Takes no memory.
pub fn keep_parts<H: Host>(host: &mut H, parts: Parts<H::S>)
    requires { H.room host.old (length parts.rows.items + length parts.shards.items) }
    ensures kept { TakesBack (H.kept host.old) (parts.rows.items ++ parts.shards.items) (H.kept host.new) }
    ensures room { UsesRoom (H.room host.old) (length parts.rows.items + length parts.shards.items) (H.room host.new) }
    ensures faults { H.faults host.new ≡ H.faults host.old }
    ensures files { H.files host.new ≡ H.files host.old }
    ensures parts { H.parts host.new ≡ H.parts host.old }
    ensures moment { H.moment host.new ≡ H.moment host.old }
{
    keep_some(host, parts.rows);
    keep_some(host, parts.shards);
}

// Gives some parts back, in their order.
fn keep_some<H: Host>(host: &mut H, parts: Vec<H::S>)
    requires { H.room host.old (length parts.items) }
    ensures kept { TakesBack (H.kept host.old) parts.items (H.kept host.new) }
    ensures room { UsesRoom (H.room host.old) (length parts.items) (H.room host.new) }
    ensures faults { H.faults host.new ≡ H.faults host.old }
    ensures files { H.files host.new ≡ H.files host.old }
    ensures parts { H.parts host.new ≡ H.parts host.old }
    ensures moment { H.moment host.new ≡ H.moment host.old }
{
    for part in parts {
        host.keep(part);
    }
}
