//! What holds of the definition.
ghost use Rattle.std.specs.Prelude.{◌≡◌, ℕ, List, Some, IsSome};
ghost use Rattle.json.specs.Json.{document};
ghost use Rattle.serde_json.specs.Data.{Data};
ghost use Rattle.serde_json.specs.Read.{read};
ghost use Rattle.zot_config.specs.Settings.{Settings};
ghost use Rattle.zot_config.specs.Table.{IsRead};
ghost use Rattle.zot_config.specs.Wrong.{Read};

/// Bytes stand for one configuration, or for one wrong field.
pub fn read_is_one()
    ensures { (bytes : List ℕ) (one other : Read Settings) → IsRead bytes one → IsRead bytes other → one ≡ other }
{}

/// A text that `serde_json` reads has a tree.
pub fn values_have_trees()
    ensures { (text : List ℕ) (d : Data) → read text ≡ Some d → IsSome (document text) }
{}
