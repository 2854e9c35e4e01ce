//! Which paths a folder keeps objects under.
ghost use Rattle.std.specs.Prelude.{◌≡◌, ◌↔◌, [], ◌∷◌, ◌++◌, IfOk, IsTrue, string_bytes};
ghost use Rattle.std.specs.declared.cmp.Ordering.TheVariants.{Less};
ghost use Rattle.zot_folder.specs.Paths.{is_object_path, is_part};
ghost use Rattle.zot_folder.specs.Walks.{IsFolderOf, is_prefix};
ghost use Rattle.zot_outside.specs.Objects.{path_cmp};

use std::alloc::{AllocError, Global};

/// Whether a path can have an object: it is parts joined by slashes, and each part has a first byte, which isn't a dot, and no NUL. So no such path leads out of the folder. Takes no memory.
pub fn names_object(path: &str) -> bool
    ensures { result ≡ is_object_path path.now }
{
    path.split('/').all(|part| is_part(part.as_bytes()))
}

// Whether these bytes are such a part.
fn is_part(part: &[u8]) -> bool
    ensures { result ≡ is_part part.now }
{
    !part.is_empty() && part[0] != b'.' && !part.contains(&0)
}

/// A path below a folder.
pub fn below(alloc: Global, folder: &str, path: &str) -> Result<String, AllocError>
    ensures { IfOk result (λ joined. string_bytes joined ≡ folder.now ++ 47 ∷ path.now) }
{
    format!(in alloc; "{folder}/{path}")
}

/// The folder that a path lies in: what stands before its last slash, or nothing.
pub fn folder_of(path: &str) -> &str
    ensures { IsFolderOf path.now result.now }
{
    match path.rsplit_once('/') {
        Some(cut) => cut.0,
        None => "",
    }
}

/// Whether the first of these bytes is a slash.
pub fn begins_with_slash(bytes: &[u8]) -> bool
    ensures { result ≡ is_prefix (47 ∷ []) bytes.now }
{
    match bytes.first() {
        Some(first) => *first == b'/',
        None => false,
    }
}

/// Whether a path is less than another.
pub fn is_less(path: &str, other: &str) -> bool
    ensures { IsTrue result ↔ (path_cmp path.now other.now ≡ Less) }
{
    path < other
}
