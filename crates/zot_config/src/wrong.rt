//! A wrong field.
ghost use Rattle.zot_config.specs.Wrong.{Names};

use crate::config_error::ConfigError;
use zot_digest::Words;

/// A wrong field: its whole path, and the text found there.
#[derive(Drop)]
pub(crate) struct Wrong {
    pub field: Words,
    pub found: Words,
}

impl Wrong {
    /// The error of the wrong field.
    pub fn into_error(self) -> ConfigError
        ensures { Names result self }
    {
        ConfigError::Field {
            field: self.field,
            found: self.found,
        }
    }
}
