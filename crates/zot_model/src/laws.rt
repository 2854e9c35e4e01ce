//! Laws of the plain registry.
ghost use Rattle.std.specs.Prelude.{◌≡◌, ◌≢◌, ◌⊎◌, ◌<◌, ◌≤◌, ℕ, List, Option, None, Some};
ghost use Rattle.std.specs.FinMap as map;
ghost use Rattle.zot_digest.specs.ByteMap.{ByteMap};
ghost use Rattle.zot_media.specs.declared.media.Media.{Media as AMedia};
ghost use Rattle.zot_media.specs.declared.reference.Reference.{Reference as AReference};
ghost use Rattle.zot_media.specs.declared.reference.Reference.TheVariants as by;
ghost use Rattle.zot_model.specs.Fits.{FitsCall, IsAmong, common_codes};
ghost use Rattle.zot_model.specs.Alone.{StandAlone};
ghost use Rattle.zot_model.specs.History.{Entry, Run, SaysFault, Step};
ghost use Rattle.zot_model.specs.Kept.{KeepsNeeded};
ghost use Rattle.zot_model.specs.Pages.{ArePages, Page, joined, tags_after};
ghost use Rattle.zot_model.specs.Plain.{MayAnswer, plain};
ghost use Rattle.zot_model.specs.Refusals.{refusal};
ghost use Rattle.zot_model.specs.State.{RepoState, RowState, StoredTag, repo_at};
ghost use Rattle.zot_model.specs.declared.call.Call.{Call};
ghost use Rattle.zot_model.specs.declared.call.Call.TheVariants as calls;
ghost use Rattle.zot_model.specs.declared.code.Code.{Code};
ghost use Rattle.zot_model.specs.declared.reply.Reply.{Reply};
ghost use Rattle.zot_model.specs.declared.reply.Reply.TheVariants.{Manifest, ManifestMade};

/// The law that each answer to a call on a repository fits the call: a success of its kind, or a refusal with one of its codes, that code's status and its kind of detail.
pub fn answers_fit()
    ensures { (moment : ℕ) (old new : RowState) (name : List ℕ) (call : Call) (reply : Reply) → MayAnswer moment old name call reply new → call ≢ calls.Base → FitsCall call reply }
{}

/// The law that each call on a repository may be refused with each of the common codes, whatever the repository has.
pub fn common_refusals_fit()
    ensures { (call : Call) (code : Code) → call ≢ calls.Base → IsAmong common_codes code → FitsCall call (refusal code) }
{}

/// The law that the entries of one repository, taken out of a row's legal history, are by themselves a legal history of a registry with that repository alone, but for the faults that they carry, which count those of the whole row.
pub fn repositories_stand_alone()
    ensures { (name : List ℕ) (old new : RowState) (entries : List Entry) → Run old entries new → StandAlone name old entries new }
{}

/// The law that a step of a row's history keeps what manifests need: of each manifest that is there before and after it, in each repository, the config and the layers that aren't external stay blobs where they were.
pub fn needed_blobs_stay()
    ensures { (old new : RowState) (entry : Entry) (name : List ℕ) → Step old entry new → KeepsNeeded (repo_at old name) (repo_at new name) }
{}

/// The law that a row's storage faults never fall, and that they rise in no entry but those that say that the storage failed.
pub fn faults_rise_where_said()
    ensures later { (old new : RowState) (entry : Entry) → Step old entry new → old.faults ≤ new.faults }
    ensures said { (old new : RowState) (entry : Entry) → Step old entry new → ¬ SaysFault entry.event → new.faults ≡ old.faults }
{}

/// The law that the pages of one list of tags, each asked by where the one before it says that the next one goes on, come to an end and are the whole list, from its beginning or after any text.
pub fn pages_are_the_list()
    ensures exist { (tags : ByteMap StoredTag) (n : ℕ) (last : Option (List ℕ)) → 0 < n → (pages : List Page) × ArePages tags n last pages }
    ensures all { (tags : ByteMap StoredTag) (n : ℕ) (pages : List Page) → 0 < n → ArePages tags n None pages → joined pages ≡ map.keys tags }
    ensures after { (tags : ByteMap StoredTag) (n : ℕ) (last : Option (List ℕ)) (pages : List Page) → 0 < n → ArePages tags n last pages → joined pages ≡ tags_after tags last }
{}

/// The law that a manifest which was put is got as it was: its media and its bytes, by the reference of the put and by its digest.
pub fn manifest_comes_back()
    ensures { (moment later : ℕ) (repo : RepoState) (reference asked : AReference) (media : AMedia) (body digest : List ℕ) (subject : Option (List ℕ))
        → (plain moment repo (calls.PutManifest reference (Some media) body)).reply ≡ ManifestMade digest subject → (asked ≡ reference) ⊎ (asked ≡ by.Digest digest)
        → (plain later (plain moment repo (calls.PutManifest reference (Some media) body)).repo (calls.GetManifest asked)).reply ≡ Manifest digest media body }
{}
