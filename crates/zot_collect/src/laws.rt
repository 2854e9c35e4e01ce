//! Laws of what a collection removes.
ghost use Rattle.std.specs.Prelude.{◌≡◌, ℕ, [], List, Bool, true, not, Option};
ghost use Rattle.std.specs.List.{Contains, filter};
ghost use Rattle.zot_collect.specs.Retire.{GoneManifests, gone_tags, left_tags};
ghost use Rattle.zot_model.specs.Retire.{is_child, left_manifests};
ghost use Rattle.zot_model.specs.Sweep.{is_sweepable, swept};
ghost use Rattle.zot_model.specs.declared.manifest_row.ManifestRow.{ManifestRow};
ghost use Rattle.zot_retention.specs.declared.policy.Policy.{Policy};
ghost use Rattle.zot_retention.specs.declared.tag_row.TagRow.{TagRow};

/// The law that a sweep at the same moment again removes nothing.
pub fn swept_again()
    ensures { (manifests : List ManifestRow) (blobs : List (List ℕ × ℕ)) (moment delay : ℕ) →
        swept manifests (filter (λ blob. not (is_sweepable manifests moment delay blob)) blobs) moment delay ≡ [] }
{}

/// The law that what is removed twice is removed once.
pub fn removed_once()
    ensures { (gone : List (List ℕ)) (manifests : List ManifestRow) → left_manifests gone (left_manifests gone manifests) ≡ left_manifests gone manifests }
{}

/// The law that a collection at the same moment again removes nothing.
pub fn collected_again()
    ensures tags { (policy : Option Policy) (tags : List TagRow) (moment : ℕ) → gone_tags policy (left_tags policy tags moment) moment ≡ [] }
    ensures manifests { (policy : Option Policy) (tags : List TagRow) (manifests : List ManifestRow) (moment delay : ℕ) (gone again : List (List ℕ)) →
        GoneManifests policy tags manifests moment delay gone →
        GoneManifests policy (left_tags policy tags moment) (left_manifests gone manifests) moment delay again → again ≡ [] }
{}

/// The law that a child of what stays stays: where it goes, each manifest that it is a child of goes.
pub fn child_stays()
    ensures { (policy : Option Policy) (tags : List TagRow) (manifests : List ManifestRow) (moment delay : ℕ) (gone : List (List ℕ)) (parent child : ManifestRow) →
        GoneManifests policy tags manifests moment delay gone → Contains manifests parent → Contains manifests child → is_child parent child ≡ true →
        Contains gone child.digest → Contains gone parent.digest }
{}
