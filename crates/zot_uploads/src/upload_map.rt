//! Open uploads by their ids.
ghost use Rattle.std.specs.Prelude.{◌≡◌, ℕ, ◌+◌, ◌≤◌, length, IfOk, IfErr, OnOk, OnErr, option_copied};
ghost use Rattle.std.specs.FinMap as map;
ghost use Rattle.zot_uploads.specs.Cases.{IsTaken, Refuses};
ghost use Rattle.zot_model.specs.Uploads.{bytes_of, if_young, put_after};

use crate::upload::Upload;
use crate::upload_error::UploadError;
use std::alloc::{AllocError, Global};
use std::collections::BTreeMap;
use std::marker::Model;
use zot_model::Span;
use zot_names::UploadId;

/// Open uploads in a tree by their ids. Contracts see the finite map.
#[derive(Drop)]
pub struct UploadMap {
    tree: BTreeMap<UploadId, Upload>,
}

impl Model for UploadMap {
    ghost use Rattle.zot_model.specs.Uploads.{OpenUpload, NumberMap, numbered, uploads_code};

    ghost Value = { NumberMap OpenUpload };

    ghost coded = { uploads_code };

    ghost view = { λ m. numbered m.tree.entries };
}

impl UploadMap {
    /// No uploads. Takes no memory.
    pub fn new(alloc: Global) -> Self
        ensures { result ≡ map.empty }
    {
        UploadMap {
            tree: BTreeMap::new(alloc),
        }
    }

    /// How many uploads are open.
    pub fn len(&self) -> usize
        ensures { result ≡ map.len self.now }
    {
        self.tree.len()
    }

    /// The upload of an id.
    pub fn get(&self, id: UploadId) -> Option<&Upload>
        ensures { option_copied result ≡ map.get self.now id }
    {
        self.tree.get(&id)
    }

    /// Sets the upload of an id. After an `Err` the uploads are as they were.
    pub fn set(&mut self, id: UploadId, upload: Upload) -> Result<(), AllocError>
        ensures ok { OnOk result (self.new ≡ map.insert self.old id upload) }
        ensures err { OnErr result (self.new ≡ self.old) }
    {
        self.tree.insert(id, upload)?;
        Ok(())
    }

    /// Adds a piece after the bytes of an upload, and answers how many there are. After an `Err` the uploads are as they were.
    pub fn append(
        &mut self,
        id: UploadId,
        range: Option<Span>,
        piece: &[u8],
    ) -> Result<u64, UploadError>
        ensures taken { OnOk result (IsTaken (map.get self.old id) range piece.now) }
        ensures length { IfOk result (λ n. n ≡ length (bytes_of (map.get self.old id)) + length piece.now) }
        ensures ok { OnOk result (self.new ≡ put_after self.old id piece.now (map.get self.old id)) }
        ensures refused { IfErr result (Refuses (map.get self.old id) range piece.now) }
        ensures stays { OnErr result (self.new ≡ self.old) }
    {
        let Some(upload) = self.tree.get_mut(&id) else {
            return Err(UploadError::Unknown);
        };
        upload.append(range, piece)
    }

    /// Removes the upload of an id, where there is one.
    pub fn remove(&mut self, id: UploadId)
        ensures { self.new ≡ map.remove self.old id }
    {
        let _ = self.tree.remove(&id);
    }

    /// Removes the uploads that are at least so many seconds old at the moment.
    pub fn remove_aged(&mut self, moment: u64, delay: u64)
        ensures young { (id : ℕ) → map.get self.new id ≡ if_young moment delay (map.get self.old id) }
        ensures bound { map.len self.new ≤ map.len self.old }
    {
        self.tree.retain(|_, upload| !upload.is_aged(moment, delay));
    }
}
