//! The files of a tree, one after another by their paths.
ghost use Rattle.std.specs.Prelude.{◌≡◌, ◌≢◌, ◌<◌, ◌≤◌, ◌⊎◌, ℕ, false, [], IfOk, IfSome, List, OnOk, Some, length, map as each, option_map, string_bytes, vec_len};
ghost use Rattle.std.specs.FinMap as map;
ghost use Rattle.std.specs.List.{AllWithin, HoldsAt};
ghost use Rattle.std.specs.declared.cmp.Ordering.TheVariants.{Greater, Less};
ghost use Rattle.zot_folder.specs.Held.{IsWalkOf};
ghost use Rattle.zot_folder.specs.Listing.{FindsAbove, IsFileAbove, front};
ghost use Rattle.zot_folder.specs.Steps.{IsStepAbove, Leads};
ghost use Rattle.zot_folder.specs.Trees.{objects_of};
ghost use Rattle.zot_folder.specs.Walks.{IsFolderOf, Searches, ShowsAfter, is_prefix};
ghost use Rattle.zot_folder.specs.declared.listing.Listing.{Listing};
ghost use Rattle.zot_outside.specs.Objects.{Follows, Keeps, Objects, path_cmp};

use crate::listing::Listing;
use crate::paths::is_less;
use crate::spot::{Spot, Step};
use crate::tree::Tree;
use std::alloc::{AllocError, Global};
use std::io;
use std::io::ErrorKind;

/// A walk through the files of a tree. While it goes on from a path that isn't less than the last one, it reads each folder once. What changes up to there changes nothing of what is to come, and a change behind it makes the walk read again only the folders that the change lies in.
#[derive(Drop)]
pub struct Walk {
    since: String,
    listings: Vec<Listing>,
    // How many of the first listings may be out of date.
    stale: usize,
}

impl Walk {
    /// A walk that hasn't begun. Takes no memory.
    pub fn new(alloc: Global) -> Self
        ensures { result.listings.items ≡ [] }
    {
        Walk {
            since: String::new(alloc),
            listings: Vec::new(alloc),
            stale: 0,
        }
    }

    /// Notes that the object of a path may change.
    pub fn note(&mut self, path: &str)
        ensures { (old new : Objects) → ((other : List ℕ) → other ≢ path.now → map.get new other ≡ map.get old other) → IsWalkOf old self.old → IsWalkOf new self.new }
    {
        if is_less(self.since.as_str(), path) {
            self.stale = self.stale.max(last_above(self.listings.as_slice(), path));
        }
    }

    // Where the search for the path after one begins.
    fn begin(&mut self, alloc: Global, after: &str) -> Result<Spot, AllocError>
        ensures bound { IfOk result (λ spot. string_bytes spot.bound ≡ after.now) }
        ensures folder { IfOk result (λ spot. IsFolderOf after.now (string_bytes spot.folder)) }
        ensures since { OnOk result (string_bytes self.new.since ≡ after.now) }
        ensures walk { (objects : Objects) → IsWalkOf objects self.old → IsWalkOf objects self.new }
    {
        self.turn_to(after);
        self.reach(alloc, after)?;
        Spot::at(alloc, after)
    }

    // Forgets what was read if the walk goes back.
    fn turn_to(&mut self, after: &str)
        ensures ready { (path_cmp (string_bytes self.new.since) after.now ≢ Greater) ⊎ (self.new.listings.items ≡ []) }
        ensures walk { (objects : Objects) → IsWalkOf objects self.old → IsWalkOf objects self.new }
    {
        if is_less(after, self.since.as_str()) {
            self.listings.clear();
        }
    }

    // Takes a step from a spot, by the listing of its folder. Where no listing of it is held, there is no step.
    fn step(&mut self, alloc: Global, spot: &mut Spot) -> Result<Step, AllocError>
        ensures leads { IfOk result (λ step. (objects : Objects) → IsWalkOf objects self.old → Searches objects (string_bytes self.old.since) (string_bytes spot.old.folder) (string_bytes spot.old.bound) → Leads objects (string_bytes self.old.since) step spot.new) }
        ensures step { IfOk result (λ step. IsStepAbove spot.old step spot.new) }
        ensures since { self.new.since ≡ self.old.since }
        ensures walk { (objects : Objects) → IsWalkOf objects self.old → IsWalkOf objects self.new }
    {
        match self.held(spot.folder()) {
            Some(at) => {
                let least = self.least(alloc, at, spot.bound())?;
                spot.follow(alloc, least)
            }
            None => Ok(Step::Unread),
        }
    }

    // Where the listing of a folder stands that is held. Those that were read after it are dropped, and so is one that may be out of date.
    fn held(&mut self, folder: &str) -> Option<usize>
        ensures within { IfSome result (λ at. at < vec_len self.new.listings) }
        ensures folder { IfSome result (λ at. HoldsAt (λ (listing : Listing). string_bytes listing.folder ≡ folder.now) self.new.listings.items at) }
        ensures fresh { IfSome result (λ at. self.new.stale ≤ at) }
        ensures since { self.new.since ≡ self.old.since }
        ensures walk { (objects : Objects) → IsWalkOf objects self.old → IsWalkOf objects self.new }
    {
        let held = self
            .listings
            .iter()
            .position(|listing| listing.is_of(folder));
        let Some(at) = held else {
            return None;
        };
        if at < self.stale {
            self.listings.truncate(at);
            return None;
        }
        self.listings.truncate(at + 1);
        Some(at)
    }

    // A copy of the least path in a listing that is greater than a bound.
    fn least(&self, alloc: Global, at: usize, bound: &str) -> Result<Option<String>, AllocError>
        requires { at < vec_len self.now.listings }
        ensures { IfOk result (λ found. HoldsAt (λ (listing : Listing). FindsAbove (each string_bytes listing.paths.items) bound.now (option_map string_bytes found)) self.now.listings.items at) }
    {
        self.listings[at].copy_above(alloc, bound)
    }

    // Adds a listing.
    fn add(&mut self, listing: Listing) -> Result<(), AllocError>
        ensures since { self.new.since ≡ self.old.since }
        ensures walk { (objects : Objects) → ShowsAfter objects (string_bytes self.old.since) (string_bytes listing.folder) (each string_bytes listing.paths.items) → IsWalkOf objects self.old → IsWalkOf objects self.new }
    {
        self.stale = self.stale.min(self.listings.len());
        Ok(self.listings.push(listing)?)
    }

    // Keeps the path that was found.
    fn found(&mut self, alloc: Global, found: &Option<String>) -> Result<(), AllocError>
        requires { IfSome found.now (λ path. path_cmp (string_bytes self.old.since) (string_bytes path) ≡ Less) }
        ensures walk { (objects : Objects) → IsWalkOf objects self.old → IsWalkOf objects self.new }
    {
        match found {
            Some(path) => self.reach(alloc, path.as_str()),
            None => Ok(()),
        }
    }

    // Keeps how far the walk has come.
    fn reach(&mut self, alloc: Global, path: &str) -> Result<(), AllocError>
        ensures since { OnOk result (string_bytes self.new.since ≡ path.now) }
        ensures walk { (objects : Objects) → (path_cmp (string_bytes self.old.since) path.now ≢ Greater) ⊎ (self.old.listings.items ≡ []) → IsWalkOf objects self.old → IsWalkOf objects self.new }
    {
        if self.since.as_str() != path {
            self.since = String::from_str(alloc, path)?;
        }
        Ok(())
    }
}

// How many of the first listings there are up to the last one whose folder a path lies below.
fn last_above(listings: &[Listing], path: &str) -> usize
    ensures { AllWithin (λ (listing : Listing). is_prefix (front (string_bytes listing.folder)) path.now ≡ false) listings.now result (length listings.now) }
{
    let mut at = listings.len();
    while at > 0 && !listings[at - 1].is_above(path) {
        at -= 1;
    }
    at
}

// Reads a folder for a walk.
fn read<T: Tree>(walk: &mut Walk, tree: &mut T, alloc: Global, folder: &str) -> io::Result<()>
    ensures kept { Keeps (T.files tree.old) (T.files tree.new) }
    ensures since { walk.new.since ≡ walk.old.since }
    ensures walk { IfSome (objects_of (T.files tree.old)) (λ objects. IsWalkOf objects walk.old → IsWalkOf objects walk.new) }
{
    let listing = Listing::read(tree, alloc, folder)?;
    Ok(walk.add(listing)?)
}

/// The least path of a file of a tree that is greater than the path `after`.
pub fn next_file<T: Tree>(
    walk: &mut Walk,
    tree: &mut T,
    alloc: Global,
    after: &str,
) -> io::Result<Option<String>>
    ensures kept { Keeps (T.files tree.old) (T.files tree.new) }
    ensures walk { IfSome (objects_of (T.files tree.old)) (λ objects. IsWalkOf objects walk.old → IsWalkOf objects walk.new) }
    ensures next { IfOk result (λ found. IfSome (objects_of (T.files tree.old)) (λ objects. IsWalkOf objects walk.old → Follows (Some objects) after.now (option_map string_bytes found))) }
    ensures above { IfOk result (λ found. IfSome found (λ path. IsFileAbove after.now (string_bytes path))) }
{
    let mut spot = walk.begin(alloc, after)?;
    for _ in 0..u64::MAX {
        match walk.step(alloc, &mut spot)? {
            Step::Unread => read(walk, tree, alloc, spot.folder())?,
            Step::Folder => {}
            Step::End(found) => {
                walk.found(alloc, &found)?;
                return Ok(found);
            }
        }
    }
    Err(io::Error::from(ErrorKind::Other))
}
