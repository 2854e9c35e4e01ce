//! What lies in one folder of the system.
ghost use Rattle.std.specs.Prelude.{◌≡◌, ◌⊎◌, ◌∷◌, ◌++◌, [], All, IfOk, IfSome, IsSomeAnd, MatchOption, None, string_bytes};
ghost use Rattle.std.specs.Fs.{IsDir, IsFile, dir_entry_name};
ghost use Rattle.zot_folder.specs.Listing.{IsChild, IsEntry, child_path};

use crate::answers::present;
use crate::files::remove_unlocked;
use crate::fresh::is_fresh;
use crate::paths::{below, names_object};
use std::alloc::{AllocError, Global};
use std::fs::{DirEntry, File, FileType, Files, ReadDir};
use std::io::ErrorKind;
use std::{fs, io};

/// The paths in a folder of this name, in no order: those of its files, and those of its folders, which end with a slash. Fresh files that no store writes any more are removed.
pub fn paths_in<R: Files<File = File> + AllocGlobal + Clone + Drop>(
    rt: &R,
    alloc: Global,
    name: &str,
    folder: &str,
) -> io::Result<Vec<String>>
    ensures { IfOk result (λ paths. All (λ path. IsChild folder.now (string_bytes path)) paths.items) }
{
    match present(fs::read_dir(rt, name))? {
        Some(entries) => paths_of(rt, alloc, folder, entries),
        None => Ok(Vec::new(alloc)),
    }
}

// The paths of a folder's entries, in no order.
fn paths_of<R: Files<File = File> + AllocGlobal + Clone + Drop>(
    rt: &R,
    alloc: Global,
    folder: &str,
    entries: ReadDir<R, Global>,
) -> io::Result<Vec<String>>
    ensures { IfOk result (λ paths. All (λ path. IsChild folder.now (string_bytes path)) paths.items) }
{
    let mut paths = Vec::new(alloc);
    for entry in entries {
        add_entry(&mut paths, rt, alloc, folder, entry)?;
    }
    Ok(paths)
}

// Adds the path of an entry, if it has one. A name that isn't text has none.
fn add_entry<R: Files<File = File> + Drop>(
    paths: &mut Vec<String>,
    rt: &R,
    alloc: Global,
    folder: &str,
    entry: io::Result<DirEntry<R, Global>>,
) -> io::Result<()>
    ensures { IfOk result (λ _. All (λ path. IsChild folder.now (string_bytes path)) paths.old.items → All (λ path. IsChild folder.now (string_bytes path)) paths.new.items) }
{
    match entry {
        Ok(entry) => Ok(add(paths, path_of(rt, alloc, folder, &entry)?)?),
        Err(error) if error.kind() == ErrorKind::InvalidFilename => Ok(()),
        Err(error) => Err(error),
    }
}

fn add(paths: &mut Vec<String>, path: Option<String>) -> Result<(), AllocError>
    ensures none { IfOk result (λ _. path ≡ None → paths.new.items ≡ paths.old.items) }
    ensures some { IfOk result (λ _. IfSome path (λ one. paths.new.items ≡ paths.old.items ++ one ∷ [])) }
{
    if let Some(path) = path {
        paths.push(path)?;
    }
    Ok(())
}

// The path of an entry; a folder's ends with a slash. There is none for a name that can be no part of an object's path, for what is neither a file nor a folder, and for what has just gone.
fn path_of<R: Files<File = File> + Drop>(
    rt: &R,
    alloc: Global,
    folder: &str,
    entry: &DirEntry<R, Global>,
) -> io::Result<Option<String>>
    ensures child { IfOk result (λ found. IfSome found (λ path. IsChild folder.now (string_bytes path))) }
    ensures entry { IfOk result (λ found. IfSome found (λ path. IsEntry folder.now (dir_entry_name entry.now) (string_bytes path))) }
{
    let name = entry.file_name();
    if !names_object(name) {
        sweep(rt, entry);
        return Ok(None);
    }
    match present(entry.file_type())? {
        Some(kind) => Ok(marked(alloc, folder, name, kind)?),
        None => Ok(None),
    }
}

// Removes a fresh file that no store writes any more. Where that fails, it is left for the next time.
fn sweep<R: Files<File = File>>(rt: &R, entry: &DirEntry<R, Global>) {
    if is_fresh(entry.file_name()) {
        let _ = remove_unlocked(rt, entry.path().as_str());
    }
}

// The path of a name in a folder, as a listing has it: a folder's ends with a slash, and what is neither a file nor a folder has none.
fn marked(
    alloc: Global,
    folder: &str,
    name: &str,
    kind: FileType,
) -> Result<Option<String>, AllocError>
    ensures folder { IsDir kind → IfOk result (λ found. IsSomeAnd found (λ path. string_bytes path ≡ child_path folder.now (name.now ++ 47 ∷ []))) }
    ensures file { IsFile kind → IfOk result (λ found. IsSomeAnd found (λ path. string_bytes path ≡ child_path folder.now name.now)) }
    ensures entry { IfOk result (λ found. IfSome found (λ path. IsEntry folder.now name.now (string_bytes path))) }
    ensures other { IfOk result (λ found. MatchOption found ((IsDir kind → ⊥) × (IsFile kind → ⊥)) (λ _. IsDir kind ⊎ IsFile kind)) }
{
    if kind.is_dir() {
        let name = format!(in alloc; "{name}/")?;
        Ok(Some(child(alloc, folder, name.as_str())?))
    } else if kind.is_file() {
        Ok(Some(child(alloc, folder, name)?))
    } else {
        Ok(None)
    }
}

// The path of a name in a folder.
fn child(alloc: Global, folder: &str, name: &str) -> Result<String, AllocError>
    ensures { IfOk result (λ path. string_bytes path ≡ child_path folder.now name.now) }
{
    if folder.is_empty() {
        String::from_str(alloc, name)
    } else {
        below(alloc, folder, name)
    }
}
