//! Laws of uploads.
ghost use Rattle.std.specs.Prelude.{◌≡◌, ◌≢◌, ◌≤◌, ℕ, ◌+◌, List, Option, None};
ghost use Rattle.std.specs.FinMap as map;
ghost use Rattle.zot_model.specs.declared.span.Span.{Span};
ghost use Rattle.zot_uploads.specs.Cases.{HasRoom, Refuses, RefusesWhole};
ghost use Rattle.zot_model.specs.Uploads.{OpenUpload, UploadTable, open_limit, with_new, with_piece, without};
ghost use Rattle.zot_uploads.specs.declared.upload_error.UploadError.{UploadError};

/// The law that a piece and a last piece have one answer each, whatever is open and whatever comes: one of the refusals, or, as `NoMemory` stands for it here, that they are taken.
pub fn one_answer()
    ensures piece { (found : Option OpenUpload) (range : Option Span) (piece : List ℕ) → (error : UploadError) × Refuses found range piece error }
    ensures piece_one { (found : Option OpenUpload) (range : Option Span) (piece : List ℕ) (error other : UploadError) → Refuses found range piece error → Refuses found range piece other → error ≡ other }
    ensures whole { (found : Option OpenUpload) (range : Option Span) (piece digest : List ℕ) → (error : UploadError) × RefusesWhole found range piece digest error }
    ensures whole_one { (found : Option OpenUpload) (range : Option Span) (piece digest : List ℕ) (error other : UploadError) → RefusesWhole found range piece digest error → RefusesWhole found range piece digest other → error ≡ other }
{}

/// The law that a call at one upload leaves the others as they were.
pub fn others_stay()
    ensures begin { (table : UploadTable) (moment other : ℕ) → other ≢ table.opened + 1 → map.get (with_new moment table).uploads other ≡ map.get table.uploads other }
    ensures append { (table : UploadTable) (id other : ℕ) (piece : List ℕ) → other ≢ id → map.get (with_piece table id piece).uploads other ≡ map.get table.uploads other }
    ensures end { (table : UploadTable) (id other : ℕ) → other ≢ id → map.get (without table id).uploads other ≡ map.get table.uploads other }
    ensures ended { (table : UploadTable) (id : ℕ) → map.get (without table id).uploads id ≡ None }
{}

/// The law that at most 1,000 uploads are open where one more began.
pub fn few_are_open()
    ensures { (table : UploadTable) (moment : ℕ) → HasRoom table → map.len (with_new moment table).uploads ≤ open_limit }
{}
