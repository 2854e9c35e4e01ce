//! Annotations.
ghost use Rattle.std.specs.Prelude.{◌≡◌, IfOk};

use std::alloc::{AllocError, Global};
use zot_digest::Words;

/// A key and its text (OCI Image Specification 1.1, "Annotations").
#[derive(Drop)]
pub struct Annotation {
    /// The key.
    pub key: Words,
    /// The text under it.
    pub text: Words,
}

impl Annotation {
    /// A second annotation that is equal to it. It fails only where memory does.
    pub fn copy(&self, alloc: Global) -> Result<Annotation, AllocError>
        ensures { IfOk result (λ copy. copy ≡ self.now) }
    {
        let key = self.key.copy(alloc)?;
        let text = self.text.copy(alloc)?;
        Ok(Annotation { key, text })
    }
}
