//! Holdings in a list.
ghost use Rattle.std.specs.Prelude.{◌≡◌};

use crate::holding::Holding;
use std::marker::Model;

/// Holdings in a list. Contracts see the list.
#[derive(Debug, Drop)]
pub struct HoldingList {
    items: Vec<Holding>,
}

impl Model for HoldingList {
    ghost use Rattle.std.specs.Prelude.{List};
    ghost use Rattle.zot_contents.specs.declared.holding.Holding.{Holding};

    ghost Value = { List Holding };

    ghost view = { λ l. l.items.items };
}

impl HoldingList {
    /// The holdings of a vector, which is not copied.
    pub fn new(items: Vec<Holding>) -> Self
        ensures { result ≡ items.items }
    {
        HoldingList { items }
    }

    /// The holdings.
    pub fn as_slice(&self) -> &[Holding]
        ensures { result.now ≡ self.now }
    {
        self.items.as_slice()
    }

    /// The holdings as a vector. Takes no memory.
    pub fn into_vec(self) -> Vec<Holding>
        ensures { result.items ≡ self }
    {
        self.items
    }
}
