//! Scratch stores of a host.
ghost use Rattle.std.specs.Prelude.{◌≡◌, ◌∷◌, [], IfOk, OnErr, OnOk, string_bytes};
ghost use Rattle.zot_host.specs.Causes.{HasHostCause, OnMissing};
ghost use Rattle.zot_host.specs.Parts.{HandsOut, HasMoreRoom, KeepsRoom};
ghost use Rattle.zot_host.specs.Scratch.{scratch_path as scratch_path_of};

use crate::host::Host;
use crate::host_error::HostResult;
use std::alloc::{AllocError, Global};

/// The scratch store with a number, of a cluster whose storage lies at a root: the host's part at `scratch_path`.
pub fn scratch_part<H: Host>(
    alloc: Global,
    host: &mut H,
    root: &str,
    number: u64,
) -> HostResult<H::S>
    ensures cause { HasHostCause (H.faults host.old) (H.faults host.new) result }
    ensures ok { IfOk result (λ part. HandsOut (H.parts host.old) (part ∷ []) (H.parts host.new)) }
    ensures err { OnErr result (H.parts host.new ≡ H.parts host.old) }
    ensures missing { OnMissing result ⊥ }
    ensures files { H.files host.new ≡ H.files host.old }
    ensures kept { H.kept host.new ≡ H.kept host.old }
    ensures room { KeepsRoom (H.room host.old) (H.room host.new) }
    ensures more { OnOk result (HasMoreRoom (H.room host.old) 1 (H.room host.new)) }
    ensures moment { H.moment host.new ≡ H.moment host.old }
{
    let path = scratch_path(alloc, root, number)?;
    host.part(alloc, path.as_str())
}

/// The folder of the scratch store with a number, below a root.
#[tactic(auto, unfolding(crate::specs::Scratch::scratch_path))]
pub fn scratch_path(alloc: Global, root: &str, number: u64) -> Result<String, AllocError>
    ensures { IfOk result (λ path. string_bytes path ≡ scratch_path_of root.now number) }
{
    let mut path = String::from_str(alloc, root)?;
    path.push_str("/_scratch/")?;
    let digits = hex::encode(alloc, number.to_be_bytes())?;
    path.push_str(digits.as_str())?;
    Ok(path)
}
