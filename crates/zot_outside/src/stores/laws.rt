//! Laws of stores that tell their objects: what each call does to them, and how their paths are listed.
ghost use Rattle.std.specs.Prelude.{◌≡◌, ◌≤◌, ◌↔◌, ℕ, List, [], ◌∷◌, ◌++◌, length, Contains, Option, Some, None, IsSome, IsSomeAnd, MatchOption};
ghost use Rattle.std.specs.declared.cmp.Ordering.TheVariants.{Less};
ghost use Rattle.std.specs.FinMap as map;
ghost use Rattle.zot_outside.specs.Objects.{ChangesAlong, ChangesAt, Copies, Deletes, Extends, Follows, Objects, Puts, bytes_at, path_cmp, paths_after};

/// `put` sets the object of its path, and leaves every other path.
pub fn put_changes()
    ensures { (old : Objects) (path bytes : List ℕ) (after : Option Objects) → Puts (Some old) path bytes after
        → IsSomeAnd after (ChangesAt old path (Some bytes)) }
{}

/// `append` adds to the object of its path, and leaves every other path.
pub fn append_changes()
    ensures { (old : Objects) (path bytes : List ℕ) (after : Option Objects) → Extends (Some old) path bytes after
        → IsSomeAnd after (ChangesAt old path (Some (bytes_at old path ++ bytes))) }
{}

/// `copy` sets the object of one path to the bytes of another's, and leaves every other path.
pub fn copy_changes()
    ensures { (old : Objects) (source path : List ℕ) (after : Option Objects) → Copies (Some old) source path after
        → IsSomeAnd (map.get old source) (λ bytes. IsSomeAnd after (ChangesAt old path (Some bytes))) }
{}

/// `delete` removes the object of its path, and leaves every other path.
pub fn delete_changes()
    ensures { (old : Objects) (path : List ℕ) (after : Option Objects) → Deletes (Some old) path after
        → IsSome (map.get old path) × IsSomeAnd after (ChangesAt old path None) }
{}

/// What the objects are after a call at one path is determined by that path's object.
pub fn change_is_one()
    ensures { (old one other : Objects) (path : List ℕ) (object : Option (List ℕ)) → ChangesAt old path object one
        → ChangesAt old path object other → one ≡ other }
{}

/// Calls leave the object of each path that they weren't made at.
pub fn calls_leave_others()
    ensures { (old new : Objects) (paths : List (List ℕ)) (other : List ℕ) → ChangesAlong old paths new
        → (Contains paths other → ⊥) → map.get new other ≡ map.get old other }
{}

/// Calls after calls are the calls of both lists.
pub fn calls_join()
    ensures { (old mid new : Objects) (first second : List (List ℕ)) → ChangesAlong old first mid → ChangesAlong mid second new
        → ChangesAlong old (first ++ second) new }
{}

/// `next` lists the paths after one in their order: it finds the first of them, and the others are those after that one.
pub fn next_lists()
    ensures { (objects : Objects) (after : List ℕ) (found : Option (List ℕ)) → Follows (Some objects) after found
        → MatchOption found (paths_after objects after ≡ []) (λ path. paths_after objects after ≡ path ∷ paths_after objects path) }
{}

/// The paths after one are those that have an object and are greater.
pub fn listed_as_held()
    ensures { (objects : Objects) (after path : List ℕ) → Contains (paths_after objects after) path
        ↔ (IsSome (map.get objects path) × (path_cmp after path ≡ Less)) }
{}

/// A listing has at most as many paths as there are objects.
pub fn listing_ends()
    ensures { (objects : Objects) (after : List ℕ) → length (paths_after objects after) ≤ map.len objects }
{}
