//! Marks of the manifests that stay.
ghost use Rattle.std.specs.Prelude.{◌≡◌, ◌<◌, [], false, length, replicate, IfOk, OnOk};
ghost use Rattle.zot_collect.specs.Marks.{Grows, IsMarked, Spreads};
ghost use Rattle.zot_model.specs.Retire.{digests};
ghost use Rattle.zot_retention.specs.Kept.{Ascend};

use crate::place::place_of;
use std::alloc::{AllocError, Global};
use zot_digest::Digest;
use zot_model::ManifestRow;

// A mark for each manifest that stays, and the places of those whose children are still to be marked.
#[derive(Drop)]
pub(crate) struct Staying {
    pub(crate) marks: Vec<bool>,
    pub(crate) waiting: Vec<usize>,
}

impl Staying {
    // None of so many manifests.
    pub(crate) fn new(alloc: Global, count: usize) -> Result<Staying, AllocError>
        ensures marks { IfOk result (λ state. state.marks.items ≡ replicate count false) }
        ensures waiting { IfOk result (λ state. state.waiting.items ≡ []) }
    {
        let mut marks = Vec::with_capacity(alloc, count)?;
        for _ in 0..count {
            marks.push(false)?;
        }
        Ok(Staying {
            marks,
            waiting: Vec::new(alloc),
        })
    }

    // Marks the manifest at a place. It waits, unless it had a mark.
    pub(crate) fn mark(&mut self, place: usize) -> Result<(), AllocError>
        requires { place < length self.old.marks.items }
        ensures grows { OnOk result (Grows (λ other. other ≡ place) self.old self.new) }
        ensures marked { OnOk result (IsMarked self.new.marks.items place) }
    {
        if self.marks[place] {
            return Ok(());
        }
        self.waiting.push(place)?;
        self.marks[place] = true;
        Ok(())
    }

    // Marks the manifest of a digest, if there is one.
    pub(crate) fn mark_digest(
        &mut self,
        manifests: &[ManifestRow],
        digest: &Digest,
    ) -> Result<(), AllocError>
        requires long { length self.old.marks.items ≡ length manifests.now }
        requires ascend { Ascend (digests manifests.now) }
        ensures { OnOk result (Spreads (λ row. row.digest ≡ digest.now) manifests.now self.old self.new) }
    {
        match place_of(manifests, digest) {
            Some(place) => self.mark(place),
            None => Ok(()),
        }
    }
}
