//! The upload sessions of one repository.
ghost use Rattle.std.specs.Prelude.{◌≡◌, ◌≢◌, true, false, ◌+◌, ◌++◌, length, None, IfOk, IfErr, OnOk, OnErr, option_map};
ghost use Rattle.std.specs.FinMap as map;
ghost use Rattle.zot_uploads.specs.Cases.{HasRoom, IsTaken, IsWhole, Refuses, RefusesNew, RefusesWhole};
ghost use Rattle.zot_model.specs.Uploads.{Expires, bytes_of, is_full, no_uploads, with_new, with_piece, without};

use crate::upload::Upload;
use crate::upload_error::UploadError;
use crate::upload_map::UploadMap;
use std::alloc::Global;
use std::marker::Model;
use zot_digest::Digest;
use zot_model::{LAST_ID, OPEN_LIMIT, Span};
use zot_names::UploadId;

/// The upload sessions of one repository by their ids, and how many were opened since the table was made. Contracts see a finite map beside that number.
#[derive(Drop)]
pub struct Uploads {
    uploads: UploadMap,
    opened: u64,
}

impl Model for Uploads {
    ghost use Rattle.zot_model.specs.Uploads.{UploadTable, WereGiven, table_code};

    ghost Value = { UploadTable };

    ghost coded = { table_code };

    ghost view = { λ u. record { uploads = u.uploads; opened = u.opened } };

    ghost invariant = { λ u. WereGiven u.uploads u.opened };
}

impl Uploads {
    /// The table in which nothing was opened yet. Takes no memory.
    pub fn new(alloc: Global) -> Self
        ensures { result ≡ no_uploads }
    {
        Uploads {
            uploads: UploadMap::new(alloc),
            opened: 0,
        }
    }

    /// Whether it is the table in which nothing was opened yet.
    pub fn is_fresh(&self) -> bool
        ensures fresh { result ≡ true → self.now ≡ no_uploads }
        ensures other { result ≡ false → self.now ≢ no_uploads }
    {
        self.opened == 0 && self.uploads.len() == 0
    }

    /// Whether no upload more may be opened: 1,000 are open, or the last id was given.
    #[tactic(auto, unfolding(zot_model::specs::Uploads::open_limit, zot_model::specs::Uploads::last_id))]
    pub fn is_full(&self) -> bool
        ensures { result ≡ is_full self.now }
    {
        self.uploads.len() >= OPEN_LIMIT || self.opened >= LAST_ID
    }

    /// Opens an upload with no bytes at the moment, in seconds. Its id is the number of uploads opened, this one counted. `Full` comes exactly where 1,000 are open or the last id was given, `NoMemory` only where memory runs out. After an `Err` the table is as it was.
    #[tactic(auto, unfolding(zot_model::specs::Uploads::open_limit, zot_model::specs::Uploads::last_id))]
    pub fn begin(&mut self, alloc: Global, moment: u64) -> Result<UploadId, UploadError>
        ensures room { OnOk result (HasRoom self.old) }
        ensures id { IfOk result (λ id. id ≡ self.old.opened + 1) }
        ensures fresh { IfOk result (λ id. map.get self.old.uploads id ≡ None) }
        ensures ok { OnOk result (self.new ≡ with_new moment self.old) }
        ensures refused { IfErr result (RefusesNew self.old) }
        ensures stays { OnErr result (self.new ≡ self.old) }
    {
        if self.uploads.len() >= OPEN_LIMIT || self.opened == LAST_ID {
            return Err(UploadError::Full);
        }
        let id = UploadId::new(self.opened + 1);
        self.uploads.set(id, Upload::new(alloc, moment))?;
        self.opened += 1;
        Ok(id)
    }

    /// Adds a piece after an upload's bytes, without copying these, and answers how many there are (OCI Distribution Specification, "Pushing a blob in chunks"). `Unknown`, `Range` with the length and `TooLarge` come exactly where the first of them fits, `NoMemory` only where memory runs out. After an `Err` the table is as it was.
    pub fn append(
        &mut self,
        id: UploadId,
        range: Option<Span>,
        body: &[u8],
    ) -> Result<u64, UploadError>
        ensures taken { OnOk result (IsTaken (map.get self.old.uploads id) range body.now) }
        ensures length { IfOk result (λ n. n ≡ length (bytes_of (map.get self.old.uploads id)) + length body.now) }
        ensures ok { OnOk result (self.new ≡ with_piece self.old id body.now) }
        ensures refused { IfErr result (Refuses (map.get self.old.uploads id) range body.now) }
        ensures stays { OnErr result (self.new ≡ self.old) }
    {
        self.uploads.append(id, range, body)
    }

    /// How many bytes an upload has, or none where it isn't open. Takes no memory.
    pub fn length(&self, id: UploadId) -> Option<u64>
        ensures { result ≡ option_map (λ upload. length upload.bytes) (map.get self.now.uploads id) }
    {
        self.uploads.get(id).map(|upload| upload.len())
    }

    /// All bytes of an upload with the last piece, where the digest is theirs. The cases of `append` come first, and then `Differ` with the digest that they have; `NoMemory` only where memory runs out. The upload stays open.
    pub fn whole(
        &self,
        alloc: Global,
        id: UploadId,
        range: Option<Span>,
        body: &[u8],
        digest: &Digest,
    ) -> Result<Vec<u8>, UploadError>
        ensures right { OnOk result (IsWhole (map.get self.now.uploads id) range body.now digest.now) }
        ensures bytes { IfOk result (λ bytes. bytes.items ≡ bytes_of (map.get self.now.uploads id) ++ body.now) }
        ensures refused { IfErr result (RefusesWhole (map.get self.now.uploads id) range body.now digest.now) }
    {
        match self.uploads.get(id) {
            Some(upload) => upload.joined(alloc, range, body, digest),
            None => Err(UploadError::Unknown),
        }
    }

    /// Ends an upload; where it isn't open nothing changes. Takes no memory.
    pub fn end(&mut self, id: UploadId)
        ensures { self.new ≡ without self.old id }
    {
        self.uploads.remove(id);
    }

    /// Ends the uploads that are at least so many seconds old at the moment, and answers how many those are. An upload that began later than the moment has no age. Takes no memory.
    pub fn expire(&mut self, moment: u64, delay: u64) -> u64
        ensures expired { Expires moment delay self.old self.new }
        ensures count { result + map.len self.new.uploads ≡ map.len self.old.uploads }
    {
        let before = self.uploads.len();
        self.uploads.remove_aged(moment, delay);
        (before - self.uploads.len()) as u64
    }
}
