//! How objects of a tree are written and removed, so that a call that failed leaves them as they were.
ghost use Rattle.std.specs.Prelude.{◌≡◌, false, true, IfOk, IfSome, IsTrue, MatchOption, None, OnErr, OnOk, string_bytes};
ghost use Rattle.zot_folder.specs.Paths.{is_object_path};
ghost use Rattle.zot_folder.specs.Trees.{Becomes, Cuts, Holds, IsOfObject, Publishes, Stores, objects_of};
ghost use Rattle.zot_outside.specs.Objects.{Copies, Deletes, Extends, IsMissing, Keeps};

use crate::fresh::fresh_path;
use crate::paths::folder_of;
use crate::reading::{object_size, size_before};
use crate::tree::{Content, Tree};
use std::alloc::Global;
use std::io;
use std::io::ErrorKind;

/// How often a write is tried where a folder on the way isn't there. It is made then, and may go again if another store takes it for empty.
const TRIES: u32 = 8;

/// How many fresh files one folder may have at a time.
const FRESH: u32 = 1_024;

/// Sets the object of a path to a content, which a fresh file has first. A link that lies there or on the way is an error.
pub fn write_object<T: Tree>(
    tree: &mut T,
    alloc: Global,
    path: &str,
    content: Content,
) -> io::Result<()>
    requires source { IsOfObject content }
    ensures ok { OnOk result (Stores (objects_of (T.files tree.old)) path.now content.entry (objects_of (T.files tree.new))) }
    ensures err { OnErr result (Keeps (objects_of (T.files tree.old)) (objects_of (T.files tree.new))) }
    ensures named { OnOk result (is_object_path path.now ≡ true) }
{
    for _ in 0..TRIES {
        match try_write(tree, alloc, path, content) {
            Err(error) if error.kind() == ErrorKind::NotFound => {
                tree.make_folder(alloc, folder_of(path))?;
            }
            written => return written,
        }
    }
    Err(io::Error::from(ErrorKind::NotFound))
}

/// Sets the object of one path to the bytes of another's, or answers `None` if there is no other.
pub fn copy_object<T: Tree>(
    tree: &mut T,
    alloc: Global,
    from: &str,
    to: &str,
) -> io::Result<Option<()>>
    ensures copied { IfOk result (λ found. MatchOption found (IsMissing (objects_of (T.files tree.old)) from.now × Keeps (objects_of (T.files tree.old)) (objects_of (T.files tree.new))) (λ _. Copies (objects_of (T.files tree.old)) from.now to.now (objects_of (T.files tree.new)))) }
    ensures err { OnErr result (Keeps (objects_of (T.files tree.old)) (objects_of (T.files tree.new))) }
    ensures nowhere { is_object_path from.now ≡ false → result ≡ Ok None }
{
    match object_size(tree, alloc, from)? {
        Some(_) => {
            write_object(tree, alloc, to, Content::CopyOf(from))?;
            Ok(Some(()))
        }
        None => Ok(None),
    }
}

// Sets the object of a path once.
fn try_write<T: Tree>(tree: &mut T, alloc: Global, path: &str, content: Content) -> io::Result<()>
    requires source { IsOfObject content }
    ensures ok { OnOk result (Stores (objects_of (T.files tree.old)) path.now content.entry (objects_of (T.files tree.new))) }
    ensures err { OnErr result (Keeps (objects_of (T.files tree.old)) (objects_of (T.files tree.new))) }
    ensures named { OnOk result (is_object_path path.now ≡ true) }
{
    size_before(tree, alloc, path)?;
    let fresh = create_fresh(tree, alloc, path, content)?;
    publish(tree, alloc, fresh.as_str(), path)
}

// Makes a fresh file with a content beside a path's, and answers its path.
fn create_fresh<T: Tree>(
    tree: &mut T,
    alloc: Global,
    path: &str,
    content: Content,
) -> io::Result<String>
    requires source { IsOfObject content }
    ensures hidden { IfOk result (λ fresh. is_object_path (string_bytes fresh) ≡ false) }
    ensures made { IfOk result (λ fresh. Holds (T.files tree.new) (string_bytes fresh) (objects_of (T.files tree.old)) content.entry) }
    ensures kept { Keeps (objects_of (T.files tree.old)) (objects_of (T.files tree.new)) }
{
    for number in 0..FRESH {
        let fresh = fresh_path(alloc, path, number)?;
        if create(tree, alloc, fresh.as_str(), content)? {
            return Ok(fresh);
        }
    }
    Err(io::Error::from(ErrorKind::AlreadyExists))
}

// Makes the fresh file of a path, unless something has the path. A call that failed leaves nothing of it.
fn create<T: Tree>(tree: &mut T, alloc: Global, fresh: &str, content: Content) -> io::Result<bool>
    requires hidden { is_object_path fresh.now ≡ false }
    requires source { IsOfObject content }
    ensures made { IfOk result (λ made. IsTrue made → Holds (T.files tree.new) fresh.now (objects_of (T.files tree.old)) content.entry) }
    ensures kept { Keeps (objects_of (T.files tree.old)) (objects_of (T.files tree.new)) }
{
    let made = tree.create(alloc, fresh, content);
    if made.is_err() {
        tree.discard(alloc, fresh);
    }
    made
}

// Gives a fresh file an object's path. A call that failed removes the fresh file.
fn publish<T: Tree>(tree: &mut T, alloc: Global, from: &str, path: &str) -> io::Result<()>
    requires hidden { is_object_path from.now ≡ false }
    requires named { is_object_path path.now ≡ true }
    ensures ok { OnOk result (Publishes (T.files tree.old) from.now path.now (objects_of (T.files tree.new))) }
    ensures err { OnErr result (Keeps (objects_of (T.files tree.old)) (objects_of (T.files tree.new))) }
{
    let published = tree.publish(alloc, from, path);
    if published.is_err() {
        tree.discard(alloc, from);
    }
    published
}

/// Adds bytes at the end of the object of a path, or makes an object of them if there is none. A link that lies there or on the way is an error.
pub fn extend_object<T: Tree>(
    tree: &mut T,
    alloc: Global,
    path: &str,
    bytes: &[u8],
) -> io::Result<()>
    ensures ok { OnOk result (Extends (objects_of (T.files tree.old)) path.now bytes.now (objects_of (T.files tree.new))) }
    ensures err { OnErr result (Keeps (objects_of (T.files tree.old)) (objects_of (T.files tree.new))) }
    ensures named { OnOk result (is_object_path path.now ≡ true) }
{
    for _ in 0..TRIES {
        match try_extend(tree, alloc, path, bytes) {
            Err(error) if error.kind() == ErrorKind::NotFound => {
                tree.make_folder(alloc, folder_of(path))?;
            }
            extended => return extended,
        }
    }
    Err(io::Error::from(ErrorKind::NotFound))
}

// Adds to the object of a path once. Where that fails, the file is cut back to what it was.
fn try_extend<T: Tree>(tree: &mut T, alloc: Global, path: &str, bytes: &[u8]) -> io::Result<()>
    ensures ok { OnOk result (Extends (objects_of (T.files tree.old)) path.now bytes.now (objects_of (T.files tree.new))) }
    ensures err { OnErr result (Keeps (objects_of (T.files tree.old)) (objects_of (T.files tree.new))) }
    ensures named { OnOk result (is_object_path path.now ≡ true) }
{
    let before = size_before(tree, alloc, path)?;
    let extended = tree.extend(alloc, path, bytes);
    if extended.is_err() {
        restore(tree, alloc, path, before);
    }
    extended
}

// Cuts a file back to the size that it had, or removes it if there was none.
fn restore<T: Tree>(tree: &mut T, alloc: Global, path: &str, before: Option<u64>)
    ensures { MatchOption before (Becomes (T.files tree.old) path.now None (T.files tree.new)) (λ size. Cuts (T.files tree.old) path.now size (T.files tree.new)) }
{
    match before {
        Some(size) => tree.cut(alloc, path, size),
        None => tree.discard(alloc, path),
    }
}

/// Removes the object of a path, or answers `None` if there is none. Folders that it leaves empty go too.
pub fn remove_object<T: Tree>(tree: &mut T, alloc: Global, path: &str) -> io::Result<Option<()>>
    ensures removed { IfOk result (λ found. MatchOption found (IsMissing (objects_of (T.files tree.old)) path.now × Keeps (objects_of (T.files tree.old)) (objects_of (T.files tree.new))) (λ _. Deletes (objects_of (T.files tree.old)) path.now (objects_of (T.files tree.new)))) }
    ensures err { OnErr result (Keeps (objects_of (T.files tree.old)) (objects_of (T.files tree.new))) }
    ensures nowhere { is_object_path path.now ≡ false → result ≡ Ok None }
{
    match object_size(tree, alloc, path)? {
        Some(_) => {
            tree.remove(alloc, path)?;
            tree.tidy(alloc, path);
            Ok(Some(()))
        }
        None => Ok(None),
    }
}
