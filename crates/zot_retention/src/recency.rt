//! How recently a tag was pushed.
ghost use Rattle.std.specs.Prelude.{◌≡◌};
ghost use Rattle.std.specs.Ordering.{is_lt};

use crate::tag_row::TagRow;
use std::cmp::Reverse;
use zot_names::Tag;

// A tag's push, ordered as tags are ranked: a later push first, and of equal pushes the lesser text.
#[derive(Clone, Copy, PartialEq, Eq, PartialOrd, Ord)]
pub(crate) struct Recency<'a> {
    pushed: Reverse<u64>,
    tag: &'a Tag,
}

impl<'a> Recency<'a> {
    ghost use Rattle.zot_retention.specs.Ranks.{key_cmp, key_of, key_of_row};

    // The push of this tag.
    pub(crate) fn of(row: &'a TagRow) -> Self
        ensures { key_of result ≡ key_of_row row.now }
    {
        Recency {
            pushed: Reverse(row.pushed),
            tag: &row.tag,
        }
    }

    // Whether this push comes before that of a tag.
    pub(crate) fn is_before(&self, row: &TagRow) -> bool
        ensures { result ≡ is_lt (key_cmp (key_of self.now) (key_of_row row.now)) }
    {
        self.cmp(&Recency::of(row)).is_lt()
    }
}
