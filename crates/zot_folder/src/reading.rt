//! How objects of a tree are looked up and read.
ghost use Rattle.std.specs.Prelude.{◌≡◌, ◌≤◌, false, true, IfOk, IfSome, MatchOption, None, OnOk, length};
ghost use Rattle.zot_folder.specs.Paths.{is_object_path};
ghost use Rattle.zot_folder.specs.Trees.{HasSizeOrNone, file_size, objects_of};
ghost use Rattle.zot_outside.specs.Objects.{IsMissing, Keeps, ReadsAt};

use crate::paths::names_object;
use crate::tree::{Kind, Tree};
use std::alloc::Global;
use std::io;
use std::io::ErrorKind;

/// How many bytes the object of a path has, or `None` if there is none. A path that can have no object isn't looked at.
pub fn object_size<T: Tree>(tree: &mut T, alloc: Global, path: &str) -> io::Result<Option<u64>>
    ensures kept { Keeps (T.files tree.old) (T.files tree.new) }
    ensures size { IfOk result (HasSizeOrNone (objects_of (T.files tree.old)) path.now) }
    ensures named { IfOk result (λ found. IfSome found (λ _. is_object_path path.now ≡ true)) }
    ensures nowhere { is_object_path path.now ≡ false → result ≡ Ok None }
{
    if !names_object(path) {
        return Ok(None);
    }
    let found = tree.look(alloc, path)?;
    Ok(file_size(found))
}

// How many bytes what was found has, if it is a file.
fn file_size(found: Option<Kind>) -> Option<u64>
    ensures { result ≡ file_size found }
{
    match found {
        Some(Kind::File(size)) => Some(size),
        Some(Kind::Folder) | Some(Kind::Other) | None => None,
    }
}

/// The same before a write, which fails where the path can have no object, or something else lies there or on the way.
pub fn size_before<T: Tree>(tree: &mut T, alloc: Global, path: &str) -> io::Result<Option<u64>>
    ensures kept { Keeps (T.files tree.old) (T.files tree.new) }
    ensures size { IfOk result (HasSizeOrNone (objects_of (T.files tree.old)) path.now) }
    ensures named { OnOk result (is_object_path path.now ≡ true) }
{
    if !names_object(path) {
        return Err(io::Error::from(ErrorKind::InvalidFilename));
    }
    match tree.look(alloc, path)? {
        Some(Kind::File(size)) => Ok(Some(size)),
        Some(Kind::Folder) | Some(Kind::Other) => Err(io::Error::from(ErrorKind::NotADirectory)),
        None => Ok(None),
    }
}

/// Fills a buffer with the bytes of a path's object from a place on, as far as it reaches, and answers how many there are, or `None` if there is no object.
pub fn read_object<T: Tree>(
    tree: &mut T,
    alloc: Global,
    path: &str,
    at: u64,
    buf: &mut [u8],
) -> io::Result<Option<usize>>
    ensures kept { Keeps (T.files tree.old) (T.files tree.new) }
    ensures read { IfOk result (λ found. MatchOption found (IsMissing (objects_of (T.files tree.old)) path.now) (ReadsAt (objects_of (T.files tree.old)) path.now at buf.new)) }
    ensures nowhere { is_object_path path.now ≡ false → result ≡ Ok None }
{
    match object_size(tree, alloc, path)? {
        Some(size) if at < size => Ok(Some(tree.read(alloc, path, at, buf)?)),
        Some(_) => Ok(Some(0)),
        None => Ok(None),
    }
}
