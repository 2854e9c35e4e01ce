//! What lies in one folder.
ghost use Rattle.std.specs.Prelude.{◌≡◌, ◌↔◌, All, IfOk, IfSome, IsTrue, IsSorted, map, option_map, string_bytes};
ghost use Rattle.std.proofs.Props.{props};
ghost use Rattle.std.specs.String.{string_cmp};
ghost use Rattle.zot_folder.specs.Listing.{FindsAbove, IsChild, front};
ghost use Rattle.zot_folder.specs.Trees.{objects_of};
ghost use Rattle.zot_folder.specs.Walks.{IsListing, is_prefix};
ghost use Rattle.zot_outside.specs.Objects.{Keeps, Objects};

use crate::paths::{begins_with_slash, names_object};
use crate::tree::Tree;
use std::alloc::{AllocError, Global};
use std::io;

/// The paths in one folder, in the order of their bytes: those of its files, and those of its folders, which end with a slash.
#[derive(Drop)]
pub struct Listing {
    folder: String,
    paths: Vec<String>,
    ghost ordered: { IsSorted string_cmp paths.items } by { Prim.hlevel props },
}

impl Listing {
    /// What lies in a folder of a tree. An empty path is the root's. A folder that isn't there has nothing, and neither has one in which there can be no object.
    pub fn read<T: Tree>(tree: &mut T, alloc: Global, folder: &str) -> io::Result<Listing>
        ensures kept { Keeps (T.files tree.old) (T.files tree.new) }
        ensures folder { IfOk result (λ listing. string_bytes listing.folder ≡ folder.now) }
        ensures paths { IfOk result (λ listing. All (λ path. IsChild folder.now (string_bytes path)) listing.paths.items) }
        ensures lists { IfOk result (λ listing. IfSome (objects_of (T.files tree.old)) (λ objects. IsListing objects folder.now (map string_bytes listing.paths.items))) }
    {
        if folder.is_empty() || names_object(folder) {
            let paths = tree.list(alloc, folder)?;
            return Ok(Listing::of(alloc, folder, paths)?);
        }
        Ok(Listing::of(alloc, folder, Vec::new(alloc))?)
    }

    // The listing of a folder with these paths, which are in no order.
    fn of(alloc: Global, folder: &str, paths: Vec<String>) -> Result<Listing, AllocError>
        ensures folder { IfOk result (λ listing. string_bytes listing.folder ≡ folder.now) }
        ensures paths { IfOk result (λ listing. All (λ path. IsChild folder.now (string_bytes path)) paths.items → All (λ path. IsChild folder.now (string_bytes path)) listing.paths.items) }
        ensures lists { IfOk result (λ listing. (objects : Objects) → IsListing objects folder.now (map string_bytes paths.items) → IsListing objects folder.now (map string_bytes listing.paths.items)) }
    {
        let mut paths = paths;
        paths.as_mut_slice().sort_unstable();
        let folder = String::from_str(alloc, folder)?;
        Ok(Listing { folder, paths })
    }

    /// Whether it is the listing of this folder.
    pub fn is_of(&self, folder: &str) -> bool
        ensures { IsTrue result ↔ (string_bytes self.now.folder ≡ folder.now) }
    {
        self.folder.as_str() == folder
    }

    /// Whether a path lies in the folder, or below one in it.
    pub fn is_above(&self, path: &str) -> bool
        ensures { result ≡ is_prefix (front (string_bytes self.now.folder)) path.now }
    {
        lies_below(path.as_bytes(), self.folder.as_str().as_bytes())
    }

    /// A copy of the least path that is greater than a bound.
    pub fn copy_above(&self, alloc: Global, bound: &str) -> Result<Option<String>, AllocError>
        ensures { IfOk result (λ found. FindsAbove (map string_bytes self.now.paths.items) bound.now (option_map string_bytes found)) }
    {
        match self.above(bound) {
            Some(path) => Ok(Some(String::from_str(alloc, path.as_str())?)),
            None => Ok(None),
        }
    }

    // The least path that is greater than a bound.
    fn above(&self, bound: &str) -> Option<&String>
        ensures { FindsAbove (map string_bytes self.now.paths.items) bound.now (option_map (λ path. string_bytes path.now) result) }
    {
        let paths = self.paths.as_slice();
        paths.get(paths.partition_point(|path| path.as_str() <= bound))
    }
}

// Whether a path lies below a folder. All lie below the root.
fn lies_below(path: &[u8], folder: &[u8]) -> bool
    ensures { result ≡ is_prefix (front folder.now) path.now }
{
    if folder.is_empty() {
        return true;
    }
    match path.strip_prefix(folder) {
        Some(rest) => begins_with_slash(rest),
        None => false,
    }
}
