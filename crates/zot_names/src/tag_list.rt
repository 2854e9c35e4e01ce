//! Tags in a list.
ghost use Rattle.std.specs.Prelude.{◌≡◌};

use crate::tag::Tag;
use std::marker::Model;

/// Tags in a list. Contracts see the list.
#[derive(Debug, Drop)]
pub struct TagList {
    items: Vec<Tag>,
}

impl Model for TagList {
    ghost use Rattle.std.specs.Prelude.{ℕ, List};

    ghost Value = { List (List ℕ) };

    ghost view = { λ l. l.items.items };
}

impl TagList {
    /// The tags of a vector, which is not copied.
    pub fn new(items: Vec<Tag>) -> Self
        ensures { result ≡ items.items }
    {
        TagList { items }
    }

    /// The tags.
    pub fn as_slice(&self) -> &[Tag]
        ensures { result.now ≡ self.now }
    {
        self.items.as_slice()
    }

    /// The tags as a vector. Takes no memory.
    pub fn into_vec(self) -> Vec<Tag>
        ensures { result.items ≡ self }
    {
        self.items
    }
}

impl PartialEq for TagList {
    ghost use Rattle.std.specs.Cmp.{partial_equiv_from_equiv};
    ghost use Rattle.std.specs.Cmp.Lexicographic.{lists_equiv, nat_list_eq_equiv, pointwise};
    ghost use Rattle.std.specs.Str.{bytes_eq};

    ghost eq = { pointwise bytes_eq };

    ghost laws = { partial_equiv_from_equiv (lists_equiv nat_list_eq_equiv) };

    fn eq(&self, other: &TagList) -> bool {
        self.as_slice() == other.as_slice()
    }
}

impl Eq for TagList {
    ghost use Rattle.std.specs.Cmp.Lexicographic.{lists_equiv, nat_list_eq_equiv};

    ghost laws = { lists_equiv nat_list_eq_equiv };
}
