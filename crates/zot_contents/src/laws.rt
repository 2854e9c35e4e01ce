//! Laws of what a shard of digests keeps.
ghost use Rattle.std.specs.Prelude.{ℕ, Some};
ghost use Rattle.zot_outside.specs.Objects.{Objects};
ghost use Rattle.zot_contents.specs.Shards.{AllStand, AreTight, IsTightTree, Kept};

/// Where the objects stand for what a shard keeps, and that is tight, the tree is: of the whole objects of each of its digests no two have equal bytes, but for none.
pub fn tight_means()
    ensures { (objects : Objects) (number : ℕ) (kept : Kept) → AllStand (Some objects) number kept → AreTight objects number kept → IsTightTree objects number }
{}
