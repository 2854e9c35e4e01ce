//! Which tags a policy keeps.
ghost use Rattle.std.specs.Prelude.{◌≡◌, ◌&&◌, ◌||◌, not, Bool, length, map, is_some, IfOk};
ghost use Rattle.std.specs.List.{list_any};
ghost use Rattle.zot_retention.specs.Kept.{Ascend, is_kept, is_kept_by, is_recent, kept, texts};
ghost use Rattle.zot_retention.specs.Ranks.{has_first};
ghost use Rattle.zot_retention.specs.declared.tag_row.TagRow.{TagRow};

use crate::compiled::Compiled;
use crate::first::First;
use crate::found::found_by;
use crate::marks::{marked, marks};
use crate::rule::Rule;
use crate::tag_row::TagRow;
use std::alloc::{AllocError, Global};
use zot_names::Tag;

/// The tags that a policy keeps at a moment, in the order of the list. It fails only where memory runs out.
#[tactic(auto, unfolding(crate::specs::Kept::kept_rows))]
pub fn kept_tags(
    alloc: Global,
    policy: &Compiled,
    tags: &[TagRow],
    moment: u64,
) -> Result<Vec<Tag>, AllocError>
    ensures kept { IfOk result (λ found. found.items ≡ kept policy.now tags.now moment) }
    ensures ascend { Ascend (texts tags.now) → IfOk result (λ found. Ascend found.items) }
{
    let kept = kept_marks(alloc, policy, tags, moment)?;
    let found = marked(alloc, tags, kept.as_slice())?;
    Ok(found)
}

/// For each tag of the list whether a policy keeps it at a moment. It fails only where memory runs out.
pub fn kept_marks(
    alloc: Global,
    policy: &Compiled,
    tags: &[TagRow],
    moment: u64,
) -> Result<Vec<bool>, AllocError>
    ensures { IfOk result (λ kept. kept.items ≡ map (is_kept policy.now tags.now moment) tags.now) }
{
    match policy.rules() {
        Some(rules) => kept_by_rules(alloc, rules, tags, moment),
        None => marks(alloc, true, tags),
    }
}

// Marks for the tags that some of these rules keeps.
fn kept_by_rules(
    alloc: Global,
    rules: &[Rule],
    tags: &[TagRow],
    moment: u64,
) -> Result<Vec<bool>, AllocError>
    ensures { IfOk result (λ kept. kept.items ≡ map (λ row. list_any (λ rule. is_kept_by rule tags.now moment row) rules.now) tags.now) }
{
    let mut kept = marks(alloc, false, tags)?;
    for rule in rules {
        kept = keep_more(alloc, rule, tags, moment, kept.as_slice())?;
    }
    Ok(kept)
}

// The marks of tags, and one for each tag that the rule keeps.
fn keep_more(
    alloc: Global,
    rule: &Rule,
    tags: &[TagRow],
    moment: u64,
    marks: &[bool],
) -> Result<Vec<bool>, AllocError>
    requires { length marks.now ≡ length tags.now }
    ensures { (test : TagRow → Bool) → marks.now ≡ map test tags.now →
        IfOk result (λ more. more.items ≡ map (λ row. test row || is_kept_by rule.now tags.now moment row) tags.now) }
{
    let found = found_by(alloc, rule, tags)?;
    let first = First::of(alloc, rule.count(), tags, found.as_slice())?;
    let mut more = Vec::with_capacity(alloc, tags.len())?;
    for place in 0..tags.len() {
        let meets = meets(rule, &first, moment, &tags[place]);
        more.push(is_marked(marks[place], found[place], meets))?;
    }
    Ok(more)
}

// Whether a tag has a mark, or is found and meets a criterion.
fn is_marked(mark: bool, found: bool, meets: bool) -> bool
    ensures { result ≡ (mark || (found && meets)) }
{
    mark || (found && meets)
}

// Whether a tag that the rule finds meets one of its criteria, or has none to meet.
fn meets(rule: &Rule, first: &First<'_>, moment: u64, row: &TagRow) -> bool
    ensures { result ≡ (not (is_some rule.now.count || is_some rule.now.within)
        || (has_first first.now row.now || is_recent rule.now.within moment row.now.pushed)) }
{
    let has_none = rule.count().is_none() && rule.within().is_none();
    has_none || first.has(row) || is_recent(rule.within(), moment, row.pushed)
}

// Whether a push is at most so many seconds ago, or later than the moment.
fn is_recent(within: Option<u64>, moment: u64, pushed: u64) -> bool
    ensures { result ≡ is_recent within moment pushed }
{
    match within {
        Some(seconds) => moment < pushed || moment - pushed <= seconds,
        None => false,
    }
}
