//! Laws of who holds what: one shard among all, one place, and what follows from the calls under one's own names.
ghost use Rattle.std.specs.Prelude.{◌≡◌, ◌≢◌, ◌⊎◌, ℕ, Bool, List, Option, true};
ghost use Rattle.zot_digest.specs.Digest.{IsDigest};
ghost use Rattle.zot_names.specs.Name.{IsName};
ghost use Rattle.zot_history.specs.History.{entries_of};
ghost use Rattle.zot_history.specs.Run.{RunTo};
ghost use Rattle.zot_contents.specs.Holders.{Covers, History, IsOwner, KeepsOtherShards, MovesOwn, PoolEntry, after_all, own_entries, under};
ghost use Rattle.zot_contents.specs.Pool.{AreSame, Holders, MayAnswer, ShardState, with_bytes};
ghost use Rattle.zot_contents.specs.Shards.{IsCallOf};
ghost use Rattle.zot_contents.specs.declared.pool_call.PoolCall.{PoolCall};
ghost use Rattle.zot_contents.specs.declared.pool_reply.PoolReply.{PoolReply};

/// A change of what one repository holds under a digest changes this and nothing else.
pub fn changes_are_local()
    ensures here { (held : Holders) (digest name : List ℕ) (bytes : Option (List ℕ)) → with_bytes held digest name bytes digest name ≡ bytes }
    ensures beside { (held : Holders) (digest name : List ℕ) (bytes : Option (List ℕ)) (other holder : List ℕ) → (other ≢ digest) ⊎ (holder ≢ name)
        → with_bytes held digest name bytes other holder ≡ held other holder }
{}

/// What one shard may answer, all shards may answer as one, where the others stay.
pub fn shards_answer_as_one()
    ensures { (number : ℕ) (shard later all after : Holders) (before since : ℕ) (call : PoolCall) (reply : PoolReply) → Covers number shard all → Covers number later after
        → KeepsOtherShards number all after → IsCallOf number call
        → MayAnswer number (record { held = shard; faults = before }) call reply (record { held = later; faults = since })
        → MayAnswer number (record { held = all; faults = before }) call reply (record { held = after; faults = since }) }
{}

/// The entries of one's own names, taken out of a history, are a run of what is held under them, whatever others did.
pub fn own_entries_are_a_run()
    ensures { (mine : List ℕ → Bool) (opening new : Holders) (entries : List (ℕ × PoolEntry)) → History opening entries new
        → RunTo AreSame MovesOwn (under mine opening) (own_entries mine entries) (under mine new) }
{}

/// What is held under one's own names follows from what was held at the opening and the entries of these names, whatever others did.
pub fn holders_follow()
    ensures { (mine : List ℕ → Bool) (opening new : Holders) (entries : List (ℕ × PoolEntry)) (digest name : List ℕ) → IsDigest digest → IsName name → mine name ≡ true
        → History opening entries new → new digest name ≡ after_all opening (own_entries mine entries) digest name }
{}

/// What is held under the names of one owner follows from what was held at the opening and the owner's entries, whatever others did.
pub fn owner_decides()
    ensures { (owner : ℕ) (mine : List ℕ → Bool) (opening new : Holders) (entries : List (ℕ × PoolEntry)) (digest name : List ℕ) → IsDigest digest → IsName name → mine name ≡ true
        → IsOwner owner mine entries → History opening entries new → new digest name ≡ after_all opening (entries_of owner entries) digest name }
{}
