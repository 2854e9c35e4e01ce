//! An open upload.
ghost use Rattle.std.specs.Prelude.{◌≡◌, ◌≢◌, ◌↔◌, ◌+◌, ◌-◌, ◌≤◌, ◌++◌, [], length, Some, IfOk, IfErr, IfSome, IsTrue, OnOk, OnErr};
ghost use Rattle.zot_digest.specs.Digest.{IsSound};
ghost use Rattle.zot_model.specs.Pieces.{goes_on};
ghost use Rattle.zot_uploads.specs.Cases.{IsTaken, IsWhole, Refuses, RefusesWhole};
ghost use Rattle.zot_model.specs.Ages.{is_aged};
ghost use Rattle.zot_model.specs.Uploads.{longer};

use crate::upload_error::UploadError;
use std::alloc::Global;
use std::marker::Model;
use zot_digest::{Digest, Hasher};
use zot_model::{Span, UPLOAD_LIMIT};

/// An open upload: its bytes so far, and the moment at which it began, in seconds.
#[derive(Drop)]
pub struct Upload {
    bytes: Vec<u8>,
    start: u64,
}

impl Model for Upload {
    ghost use Rattle.zot_model.specs.Uploads.{OpenUpload, upload_code};

    ghost Value = { OpenUpload };

    ghost coded = { upload_code };

    ghost view = { λ u. record { bytes = u.bytes.items; start = u.start } };
}

impl Upload {
    /// An upload with no bytes. Takes no memory.
    pub fn new(alloc: Global, start: u64) -> Self
        ensures { result ≡ record { bytes = []; start = start } }
    {
        Upload {
            bytes: Vec::new(alloc),
            start,
        }
    }

    /// How many bytes it has.
    pub fn len(&self) -> u64
        ensures { result ≡ length self.now.bytes }
    {
        self.bytes.len() as u64
    }

    /// Whether it is at least so many seconds old at the moment.
    pub fn is_aged(&self, moment: u64, delay: u64) -> bool
        ensures { result ≡ is_aged moment delay self.now.start }
    {
        moment >= self.start && moment - self.start >= delay
    }

    /// Adds a piece after the bytes, without copying these, and answers how many there are. After an `Err` the upload is as it was.
    pub fn append(&mut self, range: Option<Span>, piece: &[u8]) -> Result<u64, UploadError>
        ensures taken { OnOk result (IsTaken (Some self.old) range piece.now) }
        ensures length { IfOk result (λ n. n ≡ length self.old.bytes + length piece.now) }
        ensures ok { OnOk result (self.new ≡ longer self.old piece.now) }
        ensures refused { IfErr result (Refuses (Some self.old) range piece.now) }
        ensures stays { OnErr result (self.new ≡ self.old) }
    {
        let length = self.grown(range, piece)?;
        self.bytes.extend_from_slice(piece)?;
        Ok(length)
    }

    /// The bytes with the last piece after them, where the digest is theirs.
    pub fn joined(
        &self,
        alloc: Global,
        range: Option<Span>,
        piece: &[u8],
        digest: &Digest,
    ) -> Result<Vec<u8>, UploadError>
        ensures right { OnOk result (IsWhole (Some self.now) range piece.now digest.now) }
        ensures bytes { IfOk result (λ bytes. bytes.items ≡ self.now.bytes ++ piece.now) }
        ensures refused { IfErr result (RefusesWhole (Some self.now) range piece.now digest.now) }
    {
        if let Err(error) = self.grown(range, piece) {
            return Err(error);
        }
        let found = self.digest_with(piece);
        if found != *digest {
            return Err(UploadError::Differ(found));
        }
        let mut bytes = Vec::with_capacity(alloc, self.bytes.len() + piece.len())?;
        bytes.extend_from_slice(self.bytes.as_slice())?;
        bytes.extend_from_slice(piece)?;
        Ok(bytes)
    }

    // How many bytes there are with a piece after them, where it is taken.
    #[tactic(auto, unfolding(zot_model::specs::Pieces::upload_limit))]
    fn grown(&self, range: Option<Span>, piece: &[u8]) -> Result<u64, UploadError>
        ensures taken { OnOk result (IsTaken (Some self.now) range piece.now) }
        ensures length { IfOk result (λ n. n ≡ length self.now.bytes + length piece.now) }
        ensures refused { IfErr result (Refuses (Some self.now) range piece.now) }
        ensures no_memory { result ≢ Err UploadError.NoMemory }
    {
        let length = self.bytes.len() as u64;
        let longer = length + piece.len() as u64;
        if !goes_on(range, length, longer) {
            return Err(UploadError::Range(length));
        }
        if longer > UPLOAD_LIMIT {
            return Err(UploadError::TooLarge);
        }
        Ok(longer)
    }

    // The digest of the bytes with a piece after them.
    fn digest_with(&self, piece: &[u8]) -> Digest
        ensures { IsSound result (self.now.bytes ++ piece.now) }
    {
        let mut hasher = Hasher::new();
        hasher.update(self.bytes.as_slice());
        hasher.update(piece);
        hasher.finish()
    }
}

// Whether a range, where there is one, begins after so many bytes and ends where there are so many.
fn goes_on(range: Option<Span>, before: u64, after: u64) -> bool
    requires { before ≤ after }
    ensures { result ≡ goes_on range before (after - before) }
{
    match range {
        Some(span) => span.start == before && span.end < after && span.end + 1 == after,
        None => true,
    }
}
