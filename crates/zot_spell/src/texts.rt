//! Texts that are joined of others.
ghost use Rattle.std.specs.Prelude.{◌≡◌, ◌++◌, IfOk, codes, string_bytes};

use std::alloc::{AllocError, Global};

/// A text after this prefix.
pub fn prefixed(alloc: Global, prefix: &str, text: String) -> Result<String, AllocError>
    ensures { IfOk result (λ whole. string_bytes whole ≡ prefix.now ++ string_bytes text) }
{
    [prefix, text.as_str()].concat(alloc)
}

/// The place with this path and text under a repository.
pub fn place(alloc: Global, name: &str, path: &str, text: &str) -> Result<String, AllocError>
    ensures { IfOk result (λ place. string_bytes place ≡ codes "/v2/" ++ name.now ++ path.now ++ text.now) }
{
    ["/v2/", name, path, text].concat(alloc)
}
