//! Marks: whether something holds of each tag of a list.
ghost use Rattle.std.specs.Prelude.{◌≡◌, ◌||◌, Bool, length, map, IfOk};
ghost use Rattle.std.specs.List.{filter};
ghost use Rattle.zot_retention.specs.Patterns.{finds};
ghost use Rattle.zot_retention.specs.declared.tag_row.TagRow.{TagRow};

use crate::tag_row::TagRow;
use std::alloc::{AllocError, Global};
use zot_names::Tag;

// The same mark for each tag.
pub(crate) fn marks(alloc: Global, mark: bool, tags: &[TagRow]) -> Result<Vec<bool>, AllocError>
    ensures { IfOk result (λ marks. marks.items ≡ map (λ _. mark) tags.now) }
{
    let mut marks = Vec::with_capacity(alloc, tags.len())?;
    for _tag in tags {
        marks.push(mark)?;
    }
    Ok(marks)
}

// The tags with marks.
pub(crate) fn marked(alloc: Global, tags: &[TagRow], marks: &[bool]) -> Result<Vec<Tag>, AllocError>
    requires { length marks.now ≡ length tags.now }
    ensures { (test : TagRow → Bool) → marks.now ≡ map test tags.now →
        IfOk result (λ found. found.items ≡ map (λ row. row.tag) (filter test tags.now)) }
{
    let mut found = Vec::new(alloc);
    for place in 0..tags.len() {
        if marks[place] {
            found.push(tags[place].tag.copy(alloc)?)?;
        }
    }
    Ok(found)
}
