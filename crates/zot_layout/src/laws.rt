//! What holds of all indexes, and of the state that a row's part stands for.
ghost use Rattle.std.specs.Prelude.{◌≡◌, ◌≢◌, ◌<◌, ◌^◌, ℕ, List, Option, Some, None, Ok, true};
ghost use Rattle.std.specs.FinMap as map;
ghost use Rattle.zot_model.specs.State.{Becomes, RepoState, RowState, fresh};
ghost use Rattle.zot_outside.specs.Objects.{ChangesAt, Objects};
ghost use Rattle.zot_layout.specs.Marker.{is_marker};
ghost use Rattle.zot_layout.specs.Paths.{IsPathOf, index_path, marker_path};
ghost use Rattle.zot_layout.specs.Reading.{meaning};
ghost use Rattle.zot_layout.specs.Rows.{IsOfRow, index_by};
ghost use Rattle.zot_layout.specs.Stands.{AreAlike, StandsFor, StandsForRow, opened_repo};
ghost use Rattle.zot_layout.specs.State.{IsIndex, as_written};
ghost use Rattle.zot_layout.specs.declared.index_state.IndexState.{IndexState as AState};

/// What is read of an index is in order, and each of its tags is one of a listed manifest: it may be written again.
pub fn what_is_read_is_an_index()
    ensures { (path bytes : List ℕ) (moment : ℕ) (state : AState) → moment < 2 ^ 64 → meaning path bytes moment ≡ Ok state → IsIndex state }
{}

/// A path is that of one repository's marker or index.
pub fn a_path_is_of_one_repository()
    ensures markers { (name other : List ℕ) → marker_path name ≡ marker_path other → name ≡ other }
    ensures indexes { (name other : List ℕ) → index_path name ≡ index_path other → name ≡ other }
    ensures apart { (name other : List ℕ) → marker_path name ≢ index_path other }
{}

/// A call at a path that isn't of a repository leaves what the objects stand for under its name.
pub fn other_paths_leave_a_repository()
    ensures { (old new : Objects) (path : List ℕ) (object : Option (List ℕ)) (moment : ℕ) (name : List ℕ) (repo : RepoState) → ChangesAt old path object new
        → path ≢ marker_path name → path ≢ index_path name → StandsFor old moment name repo → StandsFor new moment name repo }
{}

/// A marker that is put makes a repository known, with what its index says.
pub fn a_marker_makes_known()
    ensures { (old new : Objects) (moment : ℕ) (name marker : List ℕ) (index : AState) → ChangesAt old (marker_path name) (Some marker) new → is_marker marker ≡ true
        → index_by name moment (map.get old (index_path name)) ≡ Ok index → StandsFor new moment name (opened_repo index) }
{}

/// An index that is put is what the objects stand for under the name, where its marker is there. Its sizes aren't part of the state.
pub fn an_index_is_the_state()
    ensures put { (old new : Objects) (moment : ℕ) (name marker text : List ℕ) (index : AState) → ChangesAt old (index_path name) (Some text) new → map.get old (marker_path name) ≡ Some marker
        → is_marker marker ≡ true → meaning (index_path name) text moment ≡ Ok index → StandsFor new moment name (opened_repo index) }
    ensures sizes { (index : AState) → opened_repo (as_written index) ≡ opened_repo index }
{}

/// A repository whose marker is deleted is as one that nobody has stored anything in.
pub fn without_a_marker_it_is_fresh()
    ensures { (old new : Objects) (moment : ℕ) (name : List ℕ) → ChangesAt old (marker_path name) None new → StandsFor new moment name fresh }
{}

/// A write at a path of a repository changes what the objects stand for of that one alone.
pub fn a_write_is_of_one_repository()
    ensures { (old new : Objects) (moment members number : ℕ) (key : List ℕ) (row after : RowState) (name path : List ℕ) (object : Option (List ℕ)) (repo : RepoState) → IsPathOf name path
        → ChangesAt old path object new → Becomes row name repo after → StandsFor new moment name repo → StandsForRow old moment (IsOfRow key members number) row → StandsForRow new moment (IsOfRow key members number) after }
{}

/// Uploads and pulls, and the blobs of other parts, leave what the objects stand for.
pub fn what_is_stored_elsewhere_leaves_it()
    ensures { (objects : Objects) (moment : ℕ) (name : List ℕ) (repo other : RepoState) → StandsFor objects moment name repo → AreAlike repo other → StandsFor objects moment name other }
{}
