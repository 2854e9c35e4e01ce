//! Which tags a rule finds.
ghost use Rattle.std.specs.Prelude.{◌≡◌, map, IfOk};
ghost use Rattle.zot_retention.specs.Kept.{is_found, patterns_find};

use crate::marks::marks;
use crate::pattern::Pattern;
use crate::rule::Rule;
use crate::tag_row::TagRow;
use std::alloc::{AllocError, Global};

// Marks for the tags that a rule finds.
pub(crate) fn found_by(alloc: Global, rule: &Rule, tags: &[TagRow]) -> Result<Vec<bool>, AllocError>
    ensures { IfOk result (λ found. found.items ≡ map (is_found rule.now) tags.now) }
{
    found_by_patterns(alloc, rule.patterns(), tags)
}

// Marks for the tags that one of these patterns finds; where there are none, for each tag.
fn found_by_patterns(
    alloc: Global,
    patterns: &[Pattern],
    tags: &[TagRow],
) -> Result<Vec<bool>, AllocError>
    ensures { IfOk result (λ found. found.items ≡ map (λ row. patterns_find patterns.now row.tag) tags.now) }
{
    let mut found = marks(alloc, patterns.is_empty(), tags)?;
    for pattern in patterns {
        found = pattern.finds_more(alloc, tags, found.as_slice())?;
    }
    Ok(found)
}
