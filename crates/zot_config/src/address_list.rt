//! Addresses in a list.
ghost use Rattle.std.specs.Prelude.{◌≡◌, length};

use crate::address::Address;
use std::marker::Model;

/// Addresses in a list. Contracts see the list.
#[derive(Drop)]
pub struct AddressList {
    items: Vec<Address>,
}

impl Model for AddressList {
    ghost use Rattle.std.specs.Prelude.{ℕ, List};

    ghost Value = { List (List ℕ) };

    ghost view = { λ l. l.items.items };
}

impl AddressList {
    /// The addresses of a vector, which is not copied.
    pub fn new(items: Vec<Address>) -> Self
        ensures { result ≡ items.items }
    {
        AddressList { items }
    }

    /// The addresses.
    pub fn as_slice(&self) -> &[Address]
        ensures { result.now ≡ self.now }
    {
        self.items.as_slice()
    }

    /// How many there are.
    pub fn len(&self) -> usize
        ensures { result ≡ length self.now }
    {
        self.items.len()
    }
}
