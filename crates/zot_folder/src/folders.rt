//! The folders of the system, and what lies in them.
ghost use Rattle.std.specs.Prelude.{◌≡◌, ◌↔◌, ◌∷◌, ◌++◌, ℕ, List, IfErr, IfOk, IfSome, IsFalse, IsTrue, MatchOption, None, Some, false, length, true};
ghost use Rattle.std.specs.IoError.{error_kind};
ghost use Rattle.std.specs.Fs.{IsDir, IsFile, file_type, metadata_len};
ghost use Rattle.std.specs.declared.io.ErrorKind.TheVariants.{NotFound};
ghost use Rattle.zot_folder.specs.Paths.{IsParentOf};
ghost use Rattle.zot_folder.specs.declared.tree.Kind.TheVariants as kinds;

use crate::answers::present;
use crate::paths::{begins_with_slash, folder_of};
use crate::tree::Kind;
use std::fs::{Files, Metadata, OpenFile};
use std::io::ErrorKind;
use std::{fs, io};

/// What lies at a path below a root, whose text has so many bytes. No link behind the root is followed, and where no folder lies on the way it is something else.
pub fn look_below<R: Files>(rt: &R, path: &str, root: usize) -> io::Result<Option<Kind>> {
    for end in root.saturating_add(1)..path.len() {
        if let Some(folder) = front(path, end) {
            match kind_at(rt, folder)? {
                Some(Kind::Folder) => {}
                Some(_) => return Ok(Some(Kind::Other)),
                None => return Ok(None),
            }
        }
    }
    kind_at(rt, path)
}

// What stands before the slash at a place of a path, if one stands there.
fn front(path: &str, end: usize) -> Option<&str>
    ensures { IfSome result (λ front. (rest : List ℕ) × (path.now ≡ front.now ++ 47 ∷ rest) × (length front.now ≡ end)) }
{
    match path.split_at_checked(end) {
        Some((front, rest)) if begins_with_slash(rest.as_bytes()) => Some(front),
        _ => None,
    }
}

// What lies at a path, whose last part isn't followed.
fn kind_at<R: Files>(rt: &R, path: &str) -> io::Result<Option<Kind>> {
    match present(fs::symlink_metadata(rt, path))? {
        Some(found) => Ok(Some(kind_of(&found))),
        None => Ok(None),
    }
}

// What the system's word for a file's kind means. A link is neither a file nor a folder.
fn kind_of(found: &Metadata) -> Kind
    ensures file { IsFile (file_type found.now) → result ≡ kinds.File (metadata_len found.now) }
    ensures folder { IsDir (file_type found.now) → result ≡ kinds.Folder }
    ensures other { (IsFile (file_type found.now) → ⊥) → (IsDir (file_type found.now) → ⊥) → result ≡ kinds.Other }
{
    if found.is_file() {
        Kind::File(found.len())
    } else if found.is_dir() {
        Kind::Folder
    } else {
        Kind::Other
    }
}

/// Whether the root is there. It may be a link to a folder. Anything else in its place is an error, and so is a link to nothing.
pub fn has_root<R: Files>(rt: &R, root: &str) -> io::Result<bool> {
    match unless_missing(fs::metadata(rt, root))? {
        Some(found) if found.is_dir() => Ok(true),
        Some(_) => Err(io::Error::from(ErrorKind::NotADirectory)),
        None => match unless_missing(fs::symlink_metadata(rt, root))? {
            Some(_) => Err(io::Error::from(ErrorKind::NotADirectory)),
            None => Ok(false),
        },
    }
}

// What was found, or `None` if its name isn't there. Every other error stays one.
fn unless_missing<T>(found: io::Result<T>) -> io::Result<Option<T>>
    ensures found { IfOk found (λ x. result ≡ Ok (Some x)) }
    ensures missing { IfErr found (λ error. error_kind error ≡ NotFound → result ≡ Ok None) }
    ensures failed { IfErr found (λ error. ¬ (error_kind error ≡ NotFound) → result ≡ Err error) }
{
    match found {
        Ok(found) => Ok(Some(found)),
        Err(error) if is_missing(error.kind()) => Ok(None),
        Err(error) => Err(error),
    }
}

fn is_missing(kind: ErrorKind) -> bool
    ensures { IsTrue result ↔ (kind ≡ NotFound) }
{
    matches!(kind, ErrorKind::NotFound)
}

/// Makes a folder, and those on the way, where they aren't there. Behind the root, whose text has so many bytes, no link is followed.
pub fn make_folders<R: Files>(rt: &R, folder: &str, root: usize) -> io::Result<()> {
    for end in 1..folder.len() {
        if let Some(front) = front(folder, end) {
            make_one(rt, front, end <= root)?;
        }
    }
    make_one(rt, folder, folder.len() <= root)
}

// Makes a folder if it isn't there.
fn make_one<R: Files>(rt: &R, folder: &str, follows: bool) -> io::Result<()> {
    let there = if follows {
        has_root(rt, folder)?
    } else {
        is_folder(kind_at(rt, folder)?)?
    };
    if there { Ok(()) } else { create(rt, folder) }
}

// Whether a folder is there. Anything else in its place is an error.
fn is_folder(found: Option<Kind>) -> io::Result<bool>
    ensures answer { IfOk result (λ there. MatchOption found (IsFalse there) (λ kind. (kind ≡ kinds.Folder) × IsTrue there)) }
    ensures folder { found ≡ Some kinds.Folder → result ≡ Ok true }
    ensures nothing { found ≡ None → result ≡ Ok false }
{
    match found {
        Some(Kind::Folder) => Ok(true),
        Some(_) => Err(io::Error::from(ErrorKind::NotADirectory)),
        None => Ok(false),
    }
}

// Makes a folder, unless another store made it just now, and brings its name to the disk.
fn create<R: Files>(rt: &R, folder: &str) -> io::Result<()> {
    match fs::create_dir(rt, folder) {
        Err(error) if error.kind() != ErrorKind::AlreadyExists => Err(error),
        _ => sync_parent(rt, folder),
    }
}

/// Brings the names in the folder that a path lies in to the disk, where its file system can do that.
pub fn sync_parent<R: Files>(rt: &R, path: &str) -> io::Result<()> {
    match fs::open(rt, parent_of(path))?.sync_all() {
        Err(error) if error.kind() == ErrorKind::InvalidInput => Ok(()),
        synced => synced,
    }
}

// The folder that a path of the system lies in: that of the program if the path has no slash.
fn parent_of(path: &str) -> &str
    ensures { IsParentOf path.now result.now }
{
    match path.rsplit_once('/') {
        Some(cut) if cut.0.is_empty() => "/",
        Some(cut) => cut.0,
        None => ".",
    }
}

/// Removes the folders that a path lies in, from the innermost on, as long as they are empty, and none that isn't below the root, whose text has so many bytes.
pub fn remove_empty<R: Files>(rt: &R, path: &str, root: usize) {
    let mut folder = folder_of(path);
    for _ in 0..path.len() {
        if folder.len() <= root || fs::remove_dir(rt, folder).is_err() {
            return;
        }
        folder = folder_of(folder);
    }
}
