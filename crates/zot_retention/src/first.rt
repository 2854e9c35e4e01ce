//! The first tags of a rule.
ghost use Rattle.std.specs.Prelude.{◌≡◌, ◌&&◌, nat_lt, Bool, length, map, IfOk};
ghost use Rattle.std.specs.List.{count_by, filter};
ghost use Rattle.zot_retention.specs.Kept.{comes_before, is_first};
ghost use Rattle.zot_retention.specs.Ranks.{IsInOrder, count_before, has_first, key_of, key_of_row};
ghost use Rattle.zot_retention.specs.declared.tag_row.TagRow.{TagRow};

use crate::recency::Recency;
use crate::tag_row::TagRow;
use std::alloc::{AllocError, Global};

// The first tags of those that a rule finds, by its count.
#[derive(Clone, Copy)]
pub(crate) enum First<'a> {
    // No tag.
    None,
    // Each tag.
    All,
    // Those up to this push.
    UpTo(Recency<'a>),
}

impl<'a> First<'a> {
    // The first tags by this count, of the tags with marks.
    pub(crate) fn of(
        alloc: Global,
        count: Option<u64>,
        tags: &'a [TagRow],
        marks: &[bool],
    ) -> Result<First<'a>, AllocError>
        requires { length marks.now ≡ length tags.now }
        ensures { (test : TagRow → Bool) → marks.now ≡ map test tags.now → IfOk result (λ first. (row : TagRow) →
            has_first first row ≡ is_first count (count_by (λ other. test other && comes_before other row) tags.now)) }
    {
        let Some(count) = count else {
            return Ok(First::None);
        };
        let mut pushes = pushes_of(alloc, tags, marks)?;
        pushes.sort()?;
        Ok(first_of(count, pushes.as_slice()))
    }

    // Whether this tag, which the rule finds, is among them.
    pub(crate) fn has(&self, row: &TagRow) -> bool
        ensures { result ≡ has_first self.now row.now }
    {
        match self {
            First::None => false,
            First::All => true,
            First::UpTo(last) => !last.is_before(row),
        }
    }
}

// The first tags by this count, of pushes that are in order.
fn first_of<'a>(count: u64, pushes: &[Recency<'a>]) -> First<'a>
    requires { IsInOrder pushes.now }
    ensures { (row : TagRow) → has_first result row ≡ nat_lt (count_before row pushes.now) count }
{
    if count == 0 {
        return First::None;
    }
    if (pushes.len() as u64) < count {
        return First::All;
    }
    First::UpTo(pushes[(count - 1) as usize])
}

// The pushes of the tags with marks.
fn pushes_of<'a>(
    alloc: Global,
    tags: &'a [TagRow],
    marks: &[bool],
) -> Result<Vec<Recency<'a>>, AllocError>
    requires { length marks.now ≡ length tags.now }
    ensures { (test : TagRow → Bool) → marks.now ≡ map test tags.now →
        IfOk result (λ pushes. map key_of pushes.items ≡ map key_of_row (filter test tags.now)) }
{
    let mut pushes = Vec::new(alloc);
    for place in 0..tags.len() {
        if marks[place] {
            pushes.push(Recency::of(&tags[place]))?;
        }
    }
    Ok(pushes)
}
