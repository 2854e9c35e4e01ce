//! What becomes of upload sessions in a repository's table.
ghost use Rattle.std.specs.Prelude.{◌≡◌, ◌+◌, ◌++◌, length, None, IfErr, IfOk, OnErr, OnOk, option_map};
ghost use Rattle.std.specs.FinMap as map;
ghost use Rattle.zot_model.specs.Uploads.{bytes_of, is_full, with_new, with_piece, without};
ghost use Rattle.zot_table.specs.Changes.{with_uploads};
ghost use Rattle.zot_uploads.specs.Cases.{HasRoom, IsTaken, IsWhole, Refuses, RefusesNew, RefusesWhole};

use crate::repository::Repository;
use std::alloc::Global;
use zot_digest::Digest;
use zot_model::Span;
use zot_names::UploadId;
use zot_uploads::UploadError;

impl Repository {
    /// Whether no upload more may be opened. Takes no memory.
    pub fn is_full(&self) -> bool
        ensures { result ≡ is_full self.now.sessions }
    {
        self.sessions.is_full()
    }

    /// Opens an upload with no bytes at the moment, by `Uploads::begin`. The repository isn't made known by it.
    pub fn begin(&mut self, alloc: Global, moment: u64) -> Result<UploadId, UploadError>
        ensures room { OnOk result (HasRoom self.old.sessions) }
        ensures id { IfOk result (λ id. id ≡ self.old.sessions.opened + 1) }
        ensures fresh { IfOk result (λ id. map.get self.old.sessions.uploads id ≡ None) }
        ensures ok { OnOk result (self.new ≡ with_uploads self.old (with_new moment self.old.sessions)) }
        ensures refused { IfErr result (RefusesNew self.old.sessions) }
        ensures stays { OnErr result (self.new ≡ self.old) }
    {
        self.sessions.begin(alloc, moment)
    }

    /// Adds a piece after an upload's bytes, and answers how many there are, by `Uploads::append`.
    pub fn append(
        &mut self,
        id: UploadId,
        range: Option<Span>,
        piece: &[u8],
    ) -> Result<u64, UploadError>
        ensures taken { OnOk result (IsTaken (map.get self.old.sessions.uploads id) range piece.now) }
        ensures length { IfOk result (λ n. n ≡ length (bytes_of (map.get self.old.sessions.uploads id)) + length piece.now) }
        ensures ok { OnOk result (self.new ≡ with_uploads self.old (with_piece self.old.sessions id piece.now)) }
        ensures refused { IfErr result (Refuses (map.get self.old.sessions.uploads id) range piece.now) }
        ensures stays { OnErr result (self.new ≡ self.old) }
    {
        self.sessions.append(id, range, piece)
    }

    /// How many bytes an upload has, or none where it isn't open. Takes no memory.
    pub fn length(&self, id: UploadId) -> Option<u64>
        ensures { result ≡ option_map (λ upload. length upload.bytes) (map.get self.now.sessions.uploads id) }
    {
        self.sessions.length(id)
    }

    /// All bytes of an upload with the last piece, where the digest is theirs, by `Uploads::whole`. The upload stays open.
    pub fn whole(
        &self,
        alloc: Global,
        id: UploadId,
        range: Option<Span>,
        piece: &[u8],
        digest: &Digest,
    ) -> Result<Vec<u8>, UploadError>
        ensures right { OnOk result (IsWhole (map.get self.now.sessions.uploads id) range piece.now digest.now) }
        ensures bytes { IfOk result (λ bytes. bytes.items ≡ bytes_of (map.get self.now.sessions.uploads id) ++ piece.now) }
        ensures refused { IfErr result (RefusesWhole (map.get self.now.sessions.uploads id) range piece.now digest.now) }
    {
        self.sessions.whole(alloc, id, range, piece, digest)
    }

    /// Ends an upload; where it isn't open nothing changes. Takes no memory.
    pub fn end(&mut self, id: UploadId)
        ensures { self.new ≡ with_uploads self.old (without self.old.sessions id) }
    {
        self.sessions.end(id);
    }
}
