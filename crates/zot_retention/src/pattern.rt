//! Patterns of tags.
ghost use Rattle.std.specs.Prelude.{◌≡◌, ◌≢◌, ◌||◌, ℕ, Bool, List, length, map, IfOk, OnOk};
ghost use Rattle.regex.specs.Strings.{matcher_pattern};
ghost use Rattle.regex.specs.declared.error.Error.TheVariants as regex_error;
ghost use Rattle.zot_retention.specs.Patterns.{FindsAs, IsPattern, IsRefused, finds};
ghost use Rattle.zot_retention.specs.declared.tag_row.TagRow.{TagRow};

use crate::pattern_error::PatternError;
use crate::tag_row::TagRow;
use regex::{Matcher, Regex};
use std::alloc::{AllocError, Global};
use std::marker::Model;
use zot_names::Tag;

/// A pattern that is built. Contracts see its text.
#[derive(Drop)]
pub struct Pattern {
    regex: Regex,
}

impl Model for Pattern {
    ghost use Rattle.std.specs.Prelude.{◌≡◌, ℕ, List};
    ghost use Rattle.regex.specs.Patterns.{default_config};
    ghost use Rattle.regex.specs.Strings.{regex_config, regex_source, IsReadFromSource};

    ghost Value = { List ℕ };

    ghost view = { λ p. regex_source p.regex };

    ghost invariant = { λ p. (regex_config p.regex ≡ default_config) × IsReadFromSource p.regex };
}

impl Pattern {
    /// Whether the pattern finds a tag: whether it matches somewhere in it. It fails only where memory runs out.
    pub fn finds(&self, alloc: Global, tag: &str) -> Result<bool, AllocError>
        ensures { IfOk result (λ found. found ≡ finds self.now tag.now) }
    {
        let mut matcher = self.regex.matcher(alloc)?;
        Ok(matcher.is_match(tag))
    }

    // The marks of tags, and one for each tag that the pattern finds.
    pub(crate) fn finds_more(
        &self,
        alloc: Global,
        tags: &[TagRow],
        marks: &[bool],
    ) -> Result<Vec<bool>, AllocError>
        requires { length marks.now ≡ length tags.now }
        ensures { (test : TagRow → Bool) → marks.now ≡ map test tags.now →
            IfOk result (λ more. more.items ≡ map (λ row. test row || finds self.now row.tag) tags.now) }
    {
        let mut matcher = self.regex.matcher(alloc)?;
        found_more(alloc, &mut matcher, tags, marks)
    }
}

// The marks of tags, and one for each tag in which the matcher finds something.
fn found_more(
    alloc: Global,
    matcher: &mut Matcher<'_>,
    tags: &[TagRow],
    marks: &[bool],
) -> Result<Vec<bool>, AllocError>
    requires { length marks.now ≡ length tags.now }
    ensures { (pattern : List ℕ) (test : TagRow → Bool) → FindsAs (matcher_pattern matcher.old) pattern → marks.now ≡ map test tags.now →
        IfOk result (λ more. more.items ≡ map (λ row. test row || finds pattern row.tag) tags.now) }
{
    let mut more = Vec::with_capacity(alloc, tags.len())?;
    for place in 0..tags.len() {
        more.push(is_found(matcher, &tags[place].tag, marks[place]))?;
    }
    Ok(more)
}

// Whether a tag has a mark, or the matcher finds something in it.
fn is_found(matcher: &mut Matcher<'_>, tag: &Tag, mark: bool) -> bool
    ensures same { matcher_pattern matcher.new ≡ matcher_pattern matcher.old }
    ensures found { (pattern : List ℕ) → FindsAs (matcher_pattern matcher.old) pattern → result ≡ (mark || finds pattern tag.now) }
{
    mark || matcher.is_match(tag.as_str())
}

/// The pattern that a text is. `Pattern(0, 0)` comes only where `regex` refused the text for another cause than memory, and a text that isn't a pattern is never built.
pub fn compile_pattern(alloc: Global, text: &str) -> Result<Pattern, PatternError>
    ensures pattern { IfOk result (λ pattern. pattern ≡ text.now) }
    ensures read { OnOk result (IsPattern text.now) }
    ensures refused { (rule place : ℕ) → result ≡ Err (PatternError.Pattern rule place) →
        (rule ≡ 0) × (place ≡ 0) × IsRefused text.now }
{
    match Regex::new(alloc, text) {
        Ok(regex) => Ok(Pattern { regex }),
        Err(error) => Err(refusal(error)),
    }
}

// What is answered for an error of `regex`.
fn refusal(error: regex::Error) -> PatternError
    ensures { (rule place : ℕ) → result ≡ PatternError.Pattern rule place →
        (rule ≡ 0) × (place ≡ 0) × (error ≢ regex_error.OutOfMemory) }
{
    match error {
        regex::Error::OutOfMemory => PatternError::NoMemory,
        regex::Error::Syntax(_) => PatternError::Pattern(0, 0),
        regex::Error::CompiledTooBig => PatternError::Pattern(0, 0),
        regex::Error::Internal => PatternError::Pattern(0, 0),
    }
}
