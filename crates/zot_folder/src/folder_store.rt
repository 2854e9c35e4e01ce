//! A folder as a store.
ghost use Rattle.std.specs.Prelude.{◌≡◌, IfOk, IfSome, option_map, string_bytes};
ghost use Rattle.std.proofs.Props.{props};
ghost use Rattle.std.specs.declared.cmp.Ordering.TheVariants.{Less};
ghost use Rattle.zot_folder.specs.Held.{Walks};
ghost use Rattle.zot_folder.specs.Trees.{objects_of};
ghost use Rattle.zot_outside.specs.Faults.{HasStoreCause, OnMissing};
ghost use Rattle.zot_outside.specs.Objects.{Follows, Keeps, path_cmp};

use crate::answers::{done, fault, found};
use crate::disk::Disk;
use crate::reading::{object_size, read_object};
use crate::tree::{Content, Tree};
use crate::walk::{Walk, next_file};
use crate::writing::{copy_object, extend_object, remove_object, write_object};
use std::alloc::{AllocError, Global};
use std::fs::{File, Files};
use zot_outside::{Failed, Store, StoreResult};

/// The files of a tree as a store: each object is a file, at its path. Over a folder of the system it doesn't tell its objects. It counts each call of the system that failed.
///
/// An object's path is parts joined by slashes. A part has at least one byte and no NUL, and doesn't begin with a dot. Any other path is missing where it is looked up, and a write to it fails. So no path leads out of the folder, and no file whose name begins with a dot is an object. There can't be both an object `a` and an object `a/b`: the second write fails.
///
/// The folder may be a symbolic link, and is made with the first object. Below it no link is followed: what is behind one is missing, and a write to it fails. Between the look at a path and the opening of its file the system has no lock, so whoever may change the folder can still put a link there.
///
/// A `put`, `copy` or `delete` that succeeded is on the disk, as far as the system gives that: the file and the names in its folder, and those of new folders. An `append` isn't brought to the disk: after a loss of power some of its bytes may be there, or none. `put` and `copy` write a fresh file, `.zot-new-` and a number, and rename it over the old one. Those that a killed program left are removed by the next listing of their folder, unless another store has them locked. A folder whose last object goes is removed.
///
/// Where the system fails in the last step, as when the names in a folder can't be brought to the disk after the file was renamed, the call fails though the folder has the new object; and an `append` that can't be cut back leaves a part of its bytes.
#[derive(Drop)]
pub struct FolderStore<T: Tree> {
    tree: T,
    walk: Walk,
    faults: u64,
    ghost walked: { Walks (objects_of (T.files tree)) walk } by { Prim.hlevel props },
}

impl<T: Tree> FolderStore<T> {
    /// The store of the files of a tree. Takes no memory.
    pub fn over(tree: T, alloc: Global) -> FolderStore<T>
        ensures tree { result.tree ≡ tree }
        ensures faults { result.faults ≡ 0 }
    {
        FolderStore {
            tree,
            walk: Walk::new(alloc),
            faults: 0,
        }
    }
}

impl<R: Files<File = File> + AllocGlobal + Clone + Drop> FolderStore<Disk<R>> {
    /// The store of the folder of this name. It takes memory for the name.
    pub fn new(rt: R, alloc: Global, root: &str) -> Result<FolderStore<Disk<R>>, AllocError>
        ensures { IfOk result (λ store. store.faults ≡ 0) }
    {
        let folder = Disk::new(rt, alloc, root)?;
        Ok(FolderStore::over(folder, alloc))
    }
}

impl<T: Tree> Store for FolderStore<T> {
    ghost objects = { λ s. objects_of (T.files s.tree) };

    ghost faults = { λ s. s.faults };

    ghost limited = { λ s. T.limited s.tree };

    fn size(&mut self, alloc: Global, path: &str) -> StoreResult<u64> {
        let size = object_size(&mut self.tree, alloc, path);
        found(&mut self.faults, size)
    }

    fn read(&mut self, alloc: Global, path: &str, at: u64, buf: &mut [u8]) -> StoreResult<usize> {
        let read = read_object(&mut self.tree, alloc, path, at, buf);
        found(&mut self.faults, read)
    }

    fn put(&mut self, alloc: Global, path: &str, bytes: &[u8]) -> StoreResult<()> {
        self.walk.note(path);
        let written = write_object(&mut self.tree, alloc, path, Content::Bytes(bytes));
        done(&mut self.faults, written)
    }

    fn append(&mut self, alloc: Global, path: &str, bytes: &[u8]) -> StoreResult<()> {
        self.walk.note(path);
        let extended = extend_object(&mut self.tree, alloc, path, bytes);
        done(&mut self.faults, extended)
    }

    fn copy(&mut self, alloc: Global, from: &str, to: &str) -> StoreResult<()> {
        self.walk.note(to);
        let copied = copy_object(&mut self.tree, alloc, from, to);
        found(&mut self.faults, copied)
    }

    fn delete(&mut self, alloc: Global, path: &str) -> StoreResult<()> {
        self.walk.note(path);
        let removed = remove_object(&mut self.tree, alloc, path);
        found(&mut self.faults, removed)
    }

    fn next(&mut self, alloc: Global, after: &str) -> StoreResult<Option<String>>
        ensures cause { HasStoreCause self.old.faults self.new.faults result }
        ensures kept { Keeps (objects_of (T.files self.old.tree)) (objects_of (T.files self.new.tree)) }
        ensures ok { IfOk result (λ found. Follows (objects_of (T.files self.old.tree)) after.now (option_map string_bytes found)) }
        ensures missing { OnMissing result ⊥ }
        ensures above { IfOk result (λ found. IfSome found (λ path. path_cmp after.now (string_bytes path) ≡ Less)) }
    {
        let next = next_file(&mut self.walk, &mut self.tree, alloc, after);
        done(&mut self.faults, next)
    }

    fn lost(&mut self) -> Failed {
        let _ = fault(&mut self.faults);
        Failed
    }
}
