//! Why a text wasn't read as a name or a tag.
use std::alloc::AllocError;
use thiserror::Error;

/// Why a text wasn't read.
#[derive(Clone, Copy, Debug, PartialEq, Eq, Error)]
pub enum NameError {
    /// The text hasn't the form.
    #[error("not a name")]
    Bad,
    /// Memory ran out; the text has the form.
    #[error("out of memory")]
    NoMemory,
}

impl From<AllocError> for NameError {
    ghost use Rattle.std.specs.Prelude.{◌≡◌};
    ghost use Rattle.zot_names.specs.declared.name_error.NameError.TheVariants.{NoMemory};

    ghost from_gives = { λ _ e. e ≡ NoMemory };

    fn from(_: AllocError) -> NameError {
        NameError::NoMemory
    }
}
