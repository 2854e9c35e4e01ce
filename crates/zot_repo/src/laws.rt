//! Laws of rows that share a pool.
ghost use Rattle.std.specs.Prelude.{◌≡◌, ℕ, List};
ghost use Rattle.zot_contents.specs.Pool.{Holders};
ghost use Rattle.zot_layout.specs.Rows.{IsOfRow};
ghost use Rattle.zot_model.specs.State.{AreSame};
ghost use Rattle.zot_repo.specs.Rows.{AgreesRow, Tables, state_of};
ghost use Rattle.zot_repo.specs.Shards.{KeepsOtherNames};

/// A call on a repository leaves what a row keeps that the repository isn't of: it fits what is held as before, and stands for the same plain row.
pub fn other_rows_stay()
    ensures agrees { (key : List ℕ) (members row : ℕ) (tables : Tables) (name : List ℕ) (old new : Holders) → ¬ IsOfRow key members row name → KeepsOtherNames name old new
        → AgreesRow (IsOfRow key members row) tables old → AgreesRow (IsOfRow key members row) tables new }
    ensures same { (key : List ℕ) (members row : ℕ) (tables : Tables) (name : List ℕ) (old new : Holders) (faults : ℕ) → ¬ IsOfRow key members row name → KeepsOtherNames name old new
        → AgreesRow (IsOfRow key members row) tables old → AreSame (state_of tables old faults) (state_of tables new faults) }
{}
