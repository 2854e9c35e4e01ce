//! The paths of fresh files, which are written first and then get an object's path.
ghost use Rattle.std.specs.Prelude.{◌≡◌, ◌∷◌, ◌++◌, false, IfOk, IsTrue, string_bytes};
ghost use Rattle.zot_folder.specs.Paths.{IsHiddenBeside, is_object_path};

use std::alloc::{AllocError, Global};

/// The path of a fresh file of a number, in the folder of a path's file. No object has it.
pub fn fresh_path(alloc: Global, path: &str, number: u32) -> Result<String, AllocError>
    ensures hidden { IfOk result (λ fresh. is_object_path (string_bytes fresh) ≡ false) }
    ensures beside { IfOk result (λ fresh. IsHiddenBeside path.now (string_bytes fresh)) }
{
    let name = format!(in alloc; "zot-new-{number}")?;
    match path.rsplit_once('/') {
        Some(cut) => hidden_in(alloc, cut.0, name.as_str()),
        None => hidden(alloc, name.as_str()),
    }
}

// The path of a name in a folder, with a dot before the name.
fn hidden_in(alloc: Global, folder: &str, name: &str) -> Result<String, AllocError>
    ensures { IfOk result (λ path. string_bytes path ≡ folder.now ++ 47 ∷ 46 ∷ name.now) }
{
    format!(in alloc; "{folder}/.{name}")
}

// A name with a dot before it.
fn hidden(alloc: Global, name: &str) -> Result<String, AllocError>
    ensures { IfOk result (λ path. string_bytes path ≡ 46 ∷ name.now) }
{
    format!(in alloc; ".{name}")
}

/// Whether a name is that of a fresh file: `.zot-new-` and a number. No object's file has such a name.
pub fn is_fresh(name: &str) -> bool
    ensures { IsTrue result → is_object_path name.now ≡ false }
{
    match name.strip_prefix(".zot-new-") {
        Some(number) => number.parse::<u32>().is_ok(),
        None => false,
    }
}
