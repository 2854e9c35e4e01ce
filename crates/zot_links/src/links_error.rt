//! Why the holders of a digest weren't opened.
use std::alloc::AllocError;
use thiserror::Error;

/// Why the holders of a digest weren't opened.
#[derive(Debug, Drop, Error)]
pub enum LinksError {
    /// The digest's record has these bytes, which aren't lines in their form and order, or in which a link has no whole origin.
    #[error("not the record of a digest")]
    Bad(Vec<u8>),
    /// A call of the store failed.
    #[error("storage failed")]
    Failed,
    /// Memory ran out.
    #[error("out of memory")]
    NoMemory,
}

impl From<AllocError> for LinksError {
    ghost use Rattle.std.specs.Prelude.{◌≡◌};
    ghost use Rattle.zot_links.specs.declared.links_error.LinksError.TheVariants.{NoMemory};

    ghost from_gives = { λ _ e. e ≡ NoMemory };

    fn from(_: AllocError) -> LinksError {
        LinksError::NoMemory
    }
}
