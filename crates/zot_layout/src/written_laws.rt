//! What holds of the layouts that are written, and of the row that they stand for.
ghost use Rattle.std.specs.Prelude.{◌≡◌, ◌≢◌, ℕ, List, Option, Some, None, Ok, true, false};
ghost use Rattle.std.specs.FinMap as map;
ghost use Rattle.zot_model.specs.State.{Becomes, RepoState, RowState, fresh, repo_at};
ghost use Rattle.zot_outside.specs.Objects.{Objects, Told};
ghost use Rattle.zot_layout.specs.Marker.{marker_meaning, marker_text};
ghost use Rattle.zot_layout.specs.Paths.{index_path, marker_path};
ghost use Rattle.zot_layout.specs.Rows.{IsOfRow, layout_of};
ghost use Rattle.zot_layout.specs.Stands.{AreAlike, StandsFor, opened_repo};
ghost use Rattle.zot_layout.specs.State.{as_written};
ghost use Rattle.zot_layout.specs.Writing.{IsKnown, IsUnknown, KeepsLayouts, PutsIndex, SetsLayout, StandsWhereTold};
ghost use Rattle.zot_layout.specs.declared.index_state.IndexState.{IndexState as AState};

/// The marker that is written is read as one.
pub fn the_own_marker_is_read()
    ensures { (path : List ℕ) → marker_meaning path marker_text ≡ Ok tt }
{}

/// What the objects hold of a repository depends on its marker and its index alone.
pub fn a_layout_lies_at_two_paths()
    ensures { (old new : Objects) (name : List ℕ) (moment : ℕ) → map.get new (marker_path name) ≡ map.get old (marker_path name)
        → map.get new (index_path name) ≡ map.get old (index_path name) → layout_of new name moment ≡ layout_of old name moment }
{}

/// A repository is known just where its marker is there.
pub fn a_marker_tells_what_is_known()
    ensures set { (old new : Objects) (name : List ℕ) (index : AState) → SetsLayout old name (Some index) new → IsKnown new name }
    ensures forgotten { (old new : Objects) (name : List ℕ) → SetsLayout old name None new → IsUnknown new name }
    ensures known { (objects : Objects) (moment : ℕ) (name : List ℕ) (repo : RepoState) → StandsFor objects moment name repo → repo.known ≡ true → IsKnown objects name }
    ensures unknown { (objects : Objects) (moment : ℕ) (name : List ℕ) (repo : RepoState) → StandsFor objects moment name repo → repo.known ≡ false → IsUnknown objects name }
{}

/// Of two writes of a repository the later one counts. One that made it known for nothing, and is taken back, has changed nothing.
pub fn the_later_write_counts()
    ensures set { (old mid new : Objects) (name : List ℕ) (first second : Option AState) → SetsLayout old name first mid → SetsLayout mid name second new → SetsLayout old name second new }
    ensures kept { (old mid new : Objects) (name : List ℕ) (found : Option AState) → KeepsLayouts old name mid → SetsLayout mid name found new → SetsLayout old name found new }
    ensures forgotten { (old mid new : Objects) (name : List ℕ) (found : Option AState) → SetsLayout old name found mid → SetsLayout mid name None new → IsUnknown old name → KeepsLayouts old name new }
{}

/// The row that a part stands for after a write of a repository has what was written of it: its manifests and tags, or that it isn't known. An index that says what the row has already leaves the row, and so does a repository that couldn't be made known.
pub fn what_is_written_is_the_rows()
    ensures put { (before after : Option Objects) (moment members number : ℕ) (key : List ℕ) (row later : RowState) (name : List ℕ) (index : AState) (repo : RepoState) → Told before after (λ old new. PutsIndex old name (as_written index) new)
        → IsOfRow key members number name → (repo_at row name).known ≡ true → AreAlike (opened_repo index) repo → Becomes row name repo later
        → StandsWhereTold before moment (IsOfRow key members number) row → StandsWhereTold after moment (IsOfRow key members number) later }
    ensures same { (before after : Option Objects) (moment members number : ℕ) (key : List ℕ) (row : RowState) (name : List ℕ) (index : AState) → Told before after (λ old new. PutsIndex old name (as_written index) new)
        → IsOfRow key members number name → AreAlike (opened_repo index) (repo_at row name)
        → StandsWhereTold before moment (IsOfRow key members number) row → StandsWhereTold after moment (IsOfRow key members number) row }
    ensures known { (before after : Option Objects) (moment members number : ℕ) (key : List ℕ) (row later : RowState) (name : List ℕ) (index : AState) (repo : RepoState) → Told before after (λ old new. SetsLayout old name (Some (as_written index)) new)
        → AreAlike (opened_repo index) repo → Becomes row name repo later
        → StandsWhereTold before moment (IsOfRow key members number) row → StandsWhereTold after moment (IsOfRow key members number) later }
    ensures unmarked { (before after : Option Objects) (moment members number : ℕ) (key : List ℕ) (row : RowState) (name : List ℕ) → Told before after (λ old new. IsUnknown old name → KeepsLayouts old name new)
        → IsOfRow key members number name → (repo_at row name).known ≡ false
        → StandsWhereTold before moment (IsOfRow key members number) row → StandsWhereTold after moment (IsOfRow key members number) row }
    ensures forgotten { (before after : Option Objects) (moment members number : ℕ) (key : List ℕ) (row later : RowState) (name : List ℕ) (repo : RepoState) → Told before after (λ old new. SetsLayout old name None new)
        → AreAlike fresh repo → Becomes row name repo later
        → StandsWhereTold before moment (IsOfRow key members number) row → StandsWhereTold after moment (IsOfRow key members number) later }
{}

/// A part stands for a row also after a repository changed in what no row's part stores.
pub fn what_is_not_stored_leaves_the_row()
    ensures { (objects : Option Objects) (moment members number : ℕ) (key : List ℕ) (row later : RowState) (name : List ℕ) (repo : RepoState) → AreAlike (repo_at row name) repo → Becomes row name repo later
        → StandsWhereTold objects moment (IsOfRow key members number) row → StandsWhereTold objects moment (IsOfRow key members number) later }
{}
