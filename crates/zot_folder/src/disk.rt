//! A folder of the system as a tree.
ghost use Rattle.std.specs.Prelude.{◌≡◌, ◌∷◌, ◌++◌, None, IfOk, string_bytes};

use crate::entries::paths_in;
use crate::files::{copy_all, create_locked, read_from};
use crate::folders::{has_root, look_below, make_folders, remove_empty, sync_parent};
use crate::paths::below;
use crate::tree::{Content, Kind, Tree};
use std::alloc::{AllocError, Global};
use std::fs::{File, Files, OpenOptions};
use std::io::Write;
use std::{fs, io};

/// The files below a folder of the system. It tells nothing of them.
#[derive(Drop)]
pub struct Disk<R> {
    rt: R,
    root: String,
    // The file that was created last. It is locked as long as it is held.
    fresh: Option<File>,
}

impl<R: Drop> Disk<R> {
    /// The files below the folder of this name.
    pub fn new(rt: R, alloc: Global, root: &str) -> Result<Disk<R>, AllocError>
        ensures { IfOk result (λ disk. string_bytes disk.root ≡ root.now) }
    {
        let root = String::from_str(alloc, root)?;
        Ok(Disk {
            rt,
            root,
            fresh: None,
        })
    }
}

impl<R> Disk<R> {
    // Where a path's file lies: below the root.
    fn file(&self, alloc: Global, path: &str) -> Result<String, AllocError>
        ensures { IfOk result (λ file. string_bytes file ≡ string_bytes self.now.root ++ 47 ∷ path.now) }
    {
        below(alloc, self.root.as_str(), path)
    }
}

impl<R: Files<File = File> + AllocGlobal + Clone + Drop> Disk<R> {
    // Writes a content into a file.
    fn fill(&self, alloc: Global, file: &mut File, content: Content) -> io::Result<()> {
        match content {
            Content::Bytes(bytes) => file.write_all(bytes),
            Content::CopyOf(path) => {
                let source = self.file(alloc, path)?;
                copy_all(alloc, &mut fs::open(&self.rt, source.as_str())?, file)
            }
        }
    }

    // Sets the length of a file.
    fn set_length(&self, alloc: Global, path: &str, length: u64) -> io::Result<()> {
        let file = self.file(alloc, path)?;
        let open = OpenOptions::new()
            .write(true)
            .open(&self.rt, file.as_str())?;
        open.set_len(length)
    }

    // Removes a file.
    fn remove_file(&self, alloc: Global, path: &str) -> io::Result<()> {
        let file = self.file(alloc, path)?;
        fs::remove_file(&self.rt, file.as_str())
    }
}

impl<R: Files<File = File> + AllocGlobal + Clone + Drop> Tree for Disk<R> {
    ghost files = { λ _. None };

    ghost limited = { λ _. tt };

    fn look(&mut self, alloc: Global, path: &str) -> io::Result<Option<Kind>> {
        let file = self.file(alloc, path)?;
        let found = look_below(&self.rt, file.as_str(), self.root.len())?;
        if found.is_none() {
            has_root(&self.rt, self.root.as_str())?;
        }
        Ok(found)
    }

    fn read(&mut self, alloc: Global, path: &str, at: u64, buf: &mut [u8]) -> io::Result<usize> {
        let file = self.file(alloc, path)?;
        read_from(&mut fs::open(&self.rt, file.as_str())?, at, buf)
    }

    fn list(&mut self, alloc: Global, folder: &str) -> io::Result<Vec<String>> {
        if folder.is_empty() {
            if has_root(&self.rt, self.root.as_str())? {
                return paths_in(&self.rt, alloc, self.root.as_str(), folder);
            }
            return Ok(Vec::new(alloc));
        }
        match self.look(alloc, folder)? {
            Some(Kind::Folder) => {
                let name = self.file(alloc, folder)?;
                paths_in(&self.rt, alloc, name.as_str(), folder)
            }
            _ => Ok(Vec::new(alloc)),
        }
    }

    fn make_folder(&mut self, alloc: Global, folder: &str) -> io::Result<()> {
        if folder.is_empty() {
            return make_folders(&self.rt, self.root.as_str(), self.root.len());
        }
        let name = self.file(alloc, folder)?;
        make_folders(&self.rt, name.as_str(), self.root.len())
    }

    fn create(&mut self, alloc: Global, path: &str, content: Content) -> io::Result<bool> {
        let file = self.file(alloc, path)?;
        match create_locked(&self.rt, file.as_str())? {
            Some(fresh) => {
                let mut fresh = fresh;
                self.fill(alloc, &mut fresh, content)?;
                fresh.sync_all()?;
                self.fresh = Some(fresh);
                Ok(true)
            }
            None => Ok(false),
        }
    }

    fn publish(&mut self, alloc: Global, from: &str, to: &str) -> io::Result<()> {
        let fresh = self.file(alloc, from)?;
        let file = self.file(alloc, to)?;
        fs::rename(&self.rt, fresh.as_str(), file.as_str())?;
        self.fresh = None;
        sync_parent(&self.rt, file.as_str())
    }

    fn discard(&mut self, alloc: Global, path: &str) {
        let _ = self.remove_file(alloc, path);
        self.fresh = None;
    }

    fn extend(&mut self, alloc: Global, path: &str, bytes: &[u8]) -> io::Result<()> {
        let file = self.file(alloc, path)?;
        let mut open = OpenOptions::new()
            .append(true)
            .create(true)
            .open(&self.rt, file.as_str())?;
        open.write_all(bytes)
    }

    fn cut(&mut self, alloc: Global, path: &str, size: u64) {
        let _ = self.set_length(alloc, path, size);
    }

    fn remove(&mut self, alloc: Global, path: &str) -> io::Result<()> {
        let file = self.file(alloc, path)?;
        fs::remove_file(&self.rt, file.as_str())?;
        sync_parent(&self.rt, file.as_str())
    }

    fn tidy(&mut self, alloc: Global, path: &str) {
        if let Ok(file) = self.file(alloc, path) {
            remove_empty(&self.rt, file.as_str(), self.root.len());
        }
    }
}
