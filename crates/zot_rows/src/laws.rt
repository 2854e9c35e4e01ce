//! Laws of rows.
ghost use Rattle.std.specs.Prelude.{ℕ, List};
ghost use Rattle.zot_contents.specs.Holders.{IsOwner, PoolEntry};
ghost use Rattle.zot_repo.specs.declared.row_config.RowConfig.{RowConfig as AConfig};
ghost use Rattle.zot_rows.specs.Seats.{AreOfOwners, is_of_row};

/// A row's seat owns the names of the row's repositories: where each entry in the pool's history is of the seat of the row that its repository is in, none but that seat's speak of these names. So what is held under them follows from its entries alone (`holders_follow`).
pub fn rows_own_their_names()
    ensures { (config : AConfig) (row : ℕ) (made : List (ℕ × PoolEntry)) → AreOfOwners config made → IsOwner row (is_of_row config row) made }
{}
