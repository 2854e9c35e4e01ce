//! Why a configuration was refused.
use std::alloc::AllocError;
use thiserror::Error;
use zot_digest::Words;

/// Why a configuration was refused.
#[derive(Debug, Drop, Error)]
pub enum ConfigError {
    /// The first wrong field by its whole path, and the text found there.
    #[error("a wrong field")]
    Field { field: Words, found: Words },
    /// Memory ran out.
    #[error("out of memory")]
    NoMemory,
}

impl From<AllocError> for ConfigError {
    ghost use Rattle.std.specs.Prelude.{◌≡◌};
    ghost use Rattle.zot_config.specs.declared.config_error.ConfigError.TheVariants.{NoMemory};

    ghost from_gives = { λ _ e. e ≡ NoMemory };

    fn from(_: AllocError) -> ConfigError {
        ConfigError::NoMemory
    }
}
