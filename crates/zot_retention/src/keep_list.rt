//! Keep rules in a list.
ghost use Rattle.std.specs.Prelude.{◌≡◌};

use crate::keep::Keep;
use std::marker::Model;

/// Keep rules in a list. Contracts see the list.
#[derive(Debug, Drop)]
pub struct KeepList {
    items: Vec<Keep>,
}

impl Model for KeepList {
    ghost use Rattle.std.specs.Prelude.{List};
    ghost use Rattle.zot_retention.specs.declared.keep.Keep.{Keep};

    ghost Value = { List Keep };

    ghost view = { λ l. l.items.items };
}

impl KeepList {
    /// The rules of a vector, which is not copied.
    pub fn new(items: Vec<Keep>) -> Self
        ensures { result ≡ items.items }
    {
        KeepList { items }
    }

    /// The rules.
    pub fn as_slice(&self) -> &[Keep]
        ensures { result.now ≡ self.now }
    {
        self.items.as_slice()
    }
}
