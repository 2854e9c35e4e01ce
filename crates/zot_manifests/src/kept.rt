//! A manifest of a repository.
ghost use Rattle.std.specs.Prelude.{◌≡◌, IfOk};

use std::alloc::{AllocError, Global};
use zot_media::{Media, Reading};

/// A manifest of a repository. Its bytes are a blob, which isn't kept here.
#[derive(Drop)]
pub struct Kept {
    pub media: Media,
    /// The moment at which it arrived, in seconds.
    pub arrived: u64,
    /// What it says.
    pub reading: Reading,
}

impl Kept {
    /// A second one that is equal to it. It fails only where memory runs out.
    pub fn copy(&self, alloc: Global) -> Result<Kept, AllocError>
        ensures { IfOk result (λ copy. copy ≡ self.now) }
    {
        let reading = self.reading.copy(alloc)?;
        Ok(Kept {
            media: self.media,
            arrived: self.arrived,
            reading,
        })
    }
}
