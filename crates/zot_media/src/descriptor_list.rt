//! Descriptors in a list.
ghost use Rattle.std.specs.Prelude.{◌≡◌, IfOk};

use crate::descriptor::Descriptor;
use std::alloc::{AllocError, Global};
use std::marker::Model;

/// Descriptors in a list. Contracts see the list.
#[derive(Drop)]
pub struct DescriptorList {
    items: Vec<Descriptor>,
}

impl Model for DescriptorList {
    ghost use Rattle.std.specs.Prelude.{List};
    ghost use Rattle.zot_media.specs.declared.descriptor.Descriptor.{Descriptor};

    ghost Value = { List Descriptor };

    ghost view = { λ l. l.items.items };
}

impl DescriptorList {
    /// The descriptors of a vector, which is not copied.
    pub fn new(items: Vec<Descriptor>) -> Self
        ensures { result ≡ items.items }
    {
        DescriptorList { items }
    }

    /// The descriptors.
    pub fn as_slice(&self) -> &[Descriptor]
        ensures { result.now ≡ self.now }
    {
        self.items.as_slice()
    }

    /// The descriptors as a vector. Takes no memory.
    pub fn into_vec(self) -> Vec<Descriptor>
        ensures { result.items ≡ self }
    {
        self.items
    }

    /// A second list of equal descriptors. It fails only where memory does.
    pub fn copy(&self, alloc: Global) -> Result<DescriptorList, AllocError>
        ensures { IfOk result (λ copy. copy ≡ self.now) }
    {
        let items = copy_descriptors(alloc, self.items.as_slice())?;
        Ok(DescriptorList { items })
    }
}

// Copies of descriptors.
fn copy_descriptors(alloc: Global, items: &[Descriptor]) -> Result<Vec<Descriptor>, AllocError>
    ensures { IfOk result (λ copies. copies.items ≡ items.now) }
{
    let mut copies = Vec::with_capacity(alloc, items.len())?;
    for item in items {
        copies.push(item.copy(alloc)?)?;
    }
    Ok(copies)
}
