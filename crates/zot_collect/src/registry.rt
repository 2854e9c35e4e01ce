//! Laws that tie what a collection removes to the steps of the plain registry.
ghost use Rattle.std.specs.Prelude.{◌≡◌, ◌∷◌, [], ℕ, List, Option, option_map};
ghost use Rattle.zot_collect.specs.Registry.{rules_of, tag_rows};
ghost use Rattle.zot_collect.specs.Retire.{GoneManifests, gone_tags};
ghost use Rattle.zot_model.specs.Collections.{Gone, IsSwept, Retires, Sweeps, blob_rows, manifest_rows, without_gone};
ghost use Rattle.zot_model.specs.PlainBlobs.{without_blob};
ghost use Rattle.zot_model.specs.State.{RepoState};
ghost use Rattle.zot_model.specs.Sweep.{swept};
ghost use Rattle.zot_model.specs.Uploads.{Expires};
ghost use Rattle.zot_retention.specs.declared.policy.Policy.{Policy};

/// The law that the tags and manifests that `retire` gives go by a step of the plain registry, under the rules of the policy, and
/// that no others may go.
pub fn retired_by_rules()
    ensures retires { (policy : Option Policy) (moment delay : ℕ) (gone : Gone) (old new : RepoState) →
        gone.tags ≡ gone_tags policy (tag_rows old.tags) moment →
        GoneManifests policy (tag_rows old.tags) (manifest_rows old) moment delay gone.manifests →
        Expires moment delay old.sessions new.sessions → new ≡ without_gone old gone new.sessions →
        Retires moment (option_map rules_of policy) delay gone old new }
    ensures no_others { (policy : Option Policy) (moment delay : ℕ) (gone : Gone) (old new : RepoState) →
        Retires moment (option_map rules_of policy) delay gone old new →
        (gone.tags ≡ gone_tags policy (tag_rows old.tags) moment)
        × GoneManifests policy (tag_rows old.tags) (manifest_rows old) moment delay gone.manifests }
{}

/// The law that the blobs that `sweepable` gives go one after another, each by a step of the plain registry: when the first is
/// gone, the others are what may be removed, and when all are gone, nothing is.
pub fn swept_one_by_one()
    ensures first { (moment delay : ℕ) (digest : List ℕ) (digests : List (List ℕ)) (repo : RepoState) →
        swept (manifest_rows repo) (blob_rows repo) moment delay ≡ digest ∷ digests →
        Sweeps moment delay digest repo (without_blob repo digest) }
    ensures others { (moment delay : ℕ) (digest : List ℕ) (digests : List (List ℕ)) (repo : RepoState) →
        swept (manifest_rows repo) (blob_rows repo) moment delay ≡ digest ∷ digests →
        swept (manifest_rows (without_blob repo digest)) (blob_rows (without_blob repo digest)) moment delay ≡ digests }
    ensures none { (moment delay : ℕ) (repo : RepoState) →
        swept (manifest_rows repo) (blob_rows repo) moment delay ≡ [] → IsSwept moment delay repo repo }
{}
