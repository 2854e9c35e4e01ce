//! Copies of what may be missing.
ghost use Rattle.std.specs.Prelude.{◌≡◌, IfOk};

use crate::descriptor::Descriptor;
use std::alloc::{AllocError, Global};
use zot_digest::Words;

/// A second subject that is equal to it.
pub fn copy_subject(
    alloc: Global,
    subject: &Option<Descriptor>,
) -> Result<Option<Descriptor>, AllocError>
    ensures { IfOk result (λ copy. copy ≡ subject.now) }
{
    match subject {
        Some(subject) => Ok(Some(subject.copy(alloc)?)),
        None => Ok(None),
    }
}

/// The same of words.
pub fn copy_words(alloc: Global, words: &Option<Words>) -> Result<Option<Words>, AllocError>
    ensures { IfOk result (λ copy. copy ≡ words.now) }
{
    match words {
        Some(words) => Ok(Some(words.copy(alloc)?)),
        None => Ok(None),
    }
}
