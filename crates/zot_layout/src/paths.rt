//! The paths of a repository's marker and index.
ghost use Rattle.std.specs.Prelude.{◌≡◌, IfOk, string_bytes};
ghost use Rattle.zot_layout.specs.Paths.{index_end, index_path, marker_end, marker_path};

use std::alloc::{AllocError, Global};

/// The path of the marker of a repository.
#[tactic(auto, unfolding(crate::specs::Paths::marker_end))]
pub fn marker_path(alloc: Global, name: &str) -> Result<String, AllocError>
    ensures { IfOk result (λ path. string_bytes path ≡ marker_path name.now) }
{
    format!(in alloc; "{name}/oci-layout")
}

/// The path of the index of a repository.
#[tactic(auto, unfolding(crate::specs::Paths::index_end))]
pub fn index_path(alloc: Global, name: &str) -> Result<String, AllocError>
    ensures { IfOk result (λ path. string_bytes path ≡ index_path name.now) }
{
    format!(in alloc; "{name}/index.json")
}
