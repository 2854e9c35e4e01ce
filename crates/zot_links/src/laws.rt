//! Laws of what a digest's objects mean.
ghost use Rattle.std.specs.Prelude.{◌≡◌, ◌≢◌, ℕ, List, Option};
ghost use Rattle.zot_digest.specs.Digest.{IsDigest};
ghost use Rattle.zot_names.specs.Name.{IsName};
ghost use Rattle.zot_outside.specs.Objects.{ChangesAt, Objects};
ghost use Rattle.zot_links.specs.Changes.{KeepsOthers};
ghost use Rattle.zot_links.specs.Meaning.{HasMeaning, Links, Stands, held, object_path, record_path};

/// A call at the path of an object leaves the objects and the records of all other digests.
pub fn object_calls_are_local()
    ensures { (old new : Objects) (digest name : List ℕ) (object : Option (List ℕ)) → IsDigest digest → ChangesAt old (object_path digest name) object new
        → KeepsOthers old digest new }
{}

/// A call at the path of a record leaves the objects and the records of all other digests.
pub fn record_calls_are_local()
    ensures { (old new : Objects) (digest : List ℕ) (record_bytes : Option (List ℕ)) → IsDigest digest → ChangesAt old (record_path digest) record_bytes new
        → KeepsOthers old digest new }
{}

/// What is held under a digest stays where its objects and its record do.
pub fn held_elsewhere()
    ensures { (old new : Objects) (digest other name : List ℕ) → KeepsOthers old digest new → IsDigest other → other ≢ digest
        → held new other name ≡ held old other name }
{}

/// The objects of a digest that stand for some holders have a meaning.
pub fn what_stands_means()
    ensures { (objects : Objects) (digest : List ℕ) (links : Links) → Stands objects digest links → HasMeaning objects digest }
{}
