//! Descriptors.
ghost use Rattle.std.specs.Prelude.{◌≡◌, IfOk};

use std::alloc::{AllocError, Global};
use zot_digest::{Digest, Words};

/// What a manifest says of another content (OCI Image Specification 1.1, "Content Descriptors").
#[derive(Drop)]
pub struct Descriptor {
    /// The text of the content's media, as it stands.
    pub media: Words,
    /// The digest of the content.
    pub digest: Digest,
    /// How many bytes it has.
    pub size: u64,
    /// Whether the field `urls` has an element, so that the content may be fetched elsewhere.
    pub external: bool,
}

impl Descriptor {
    /// A second descriptor that is equal to it. It fails only where memory does.
    pub fn copy(&self, alloc: Global) -> Result<Descriptor, AllocError>
        ensures { IfOk result (λ copy. copy ≡ self.now) }
    {
        let media = self.media.copy(alloc)?;
        Ok(Descriptor {
            media,
            digest: self.digest,
            size: self.size,
            external: self.external,
        })
    }
}
