//! Annotations in a list.
ghost use Rattle.std.specs.Prelude.{◌≡◌, IfOk};

use crate::annotation::Annotation;
use std::alloc::{AllocError, Global};
use std::marker::Model;

/// Annotations in a list. Contracts see the list.
#[derive(Drop)]
pub struct AnnotationList {
    items: Vec<Annotation>,
}

impl Model for AnnotationList {
    ghost use Rattle.std.specs.Prelude.{List};
    ghost use Rattle.zot_media.specs.declared.annotation.Annotation.{Annotation};

    ghost Value = { List Annotation };

    ghost view = { λ l. l.items.items };
}

impl AnnotationList {
    /// The annotations of a vector, which is not copied.
    pub fn new(items: Vec<Annotation>) -> Self
        ensures { result ≡ items.items }
    {
        AnnotationList { items }
    }

    /// The annotations.
    pub fn as_slice(&self) -> &[Annotation]
        ensures { result.now ≡ self.now }
    {
        self.items.as_slice()
    }

    /// A second list of equal annotations. It fails only where memory does.
    pub fn copy(&self, alloc: Global) -> Result<AnnotationList, AllocError>
        ensures { IfOk result (λ copy. copy ≡ self.now) }
    {
        let items = copy_annotations(alloc, self.items.as_slice())?;
        Ok(AnnotationList { items })
    }
}

// Copies of annotations.
fn copy_annotations(alloc: Global, items: &[Annotation]) -> Result<Vec<Annotation>, AllocError>
    ensures { IfOk result (λ copies. copies.items ≡ items.now) }
{
    let mut copies = Vec::with_capacity(alloc, items.len())?;
    for item in items {
        copies.push(item.copy(alloc)?)?;
    }
    Ok(copies)
}
