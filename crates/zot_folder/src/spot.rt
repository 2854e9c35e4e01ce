//! Where a walk stands.
ghost use Rattle.std.specs.Prelude.{◌≡◌, IfOk, None, Some, option_map, string_bytes};
ghost use Rattle.zot_folder.specs.Steps.{IsStep};
ghost use Rattle.zot_folder.specs.Walks.{IsFolderOf};

use crate::paths::folder_of;
use std::alloc::{AllocError, Global};

/// Where a walk stands: the folder that it looks in, and the path that the next one has to be greater than.
#[derive(Drop)]
pub struct Spot {
    folder: String,
    bound: String,
}

/// What a step of a walk came to.
#[derive(Drop)]
pub enum Step {
    /// The folder has to be read first.
    Unread,
    /// The walk goes on in another folder.
    Folder,
    /// The walk found a file, or there is none.
    End(Option<String>),
}

impl Spot {
    /// Where a walk begins that looks for the path after one.
    pub fn at(alloc: Global, after: &str) -> Result<Spot, AllocError>
        ensures bound { IfOk result (λ spot. string_bytes spot.bound ≡ after.now) }
        ensures folder { IfOk result (λ spot. IsFolderOf after.now (string_bytes spot.folder)) }
    {
        Ok(Spot {
            folder: String::from_str(alloc, folder_of(after))?,
            bound: String::from_str(alloc, after)?,
        })
    }

    /// The folder that the walk looks in.
    pub fn folder(&self) -> &str
        ensures { result.now ≡ string_bytes self.now.folder }
    {
        self.folder.as_str()
    }

    /// The path that the next one has to be greater than.
    pub fn bound(&self) -> &str
        ensures { result.now ≡ string_bytes self.now.bound }
    {
        self.bound.as_str()
    }

    /// Goes on from the least path in the folder that is greater than the bound: a file is the end, a folder is entered, and a folder that has no more is left.
    pub fn follow(&mut self, alloc: Global, least: Option<String>) -> Result<Step, AllocError>
        ensures { IfOk result (λ step. IsStep (option_map string_bytes least) self.old step self.new) }
    {
        match least {
            Some(path) => self.enter(alloc, path),
            None => self.leave(alloc),
        }
    }

    // Enters a folder, whose path ends with a slash, or ends with a file.
    fn enter(&mut self, alloc: Global, path: String) -> Result<Step, AllocError>
        ensures { IfOk result (λ step. IsStep (Some (string_bytes path)) self.old step self.new) }
    {
        match path.as_str().strip_suffix('/') {
            Some(folder) => {
                self.folder = String::from_str(alloc, folder)?;
                self.bound = path;
                Ok(Step::Folder)
            }
            None => Ok(Step::End(Some(path))),
        }
    }

    // Leaves the folder for the one that it lies in, or ends if it is the root.
    fn leave(&mut self, alloc: Global) -> Result<Step, AllocError>
        ensures { IfOk result (λ step. IsStep None self.old step self.new) }
    {
        if self.folder.is_empty() {
            return Ok(Step::End(None));
        }
        self.folder = String::from_str(alloc, folder_of(self.folder.as_str()))?;
        Ok(Step::Folder)
    }
}
