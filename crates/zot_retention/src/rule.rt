//! Keep rules with their built patterns.
ghost use Rattle.std.specs.Prelude.{◌≡◌, ℕ, IfOk, OnOk, All};
ghost use Rattle.zot_retention.specs.Patterns.{IsPattern, IsRefused};
ghost use Rattle.zot_retention.specs.Policies.{HasPatterns, IsFirst, IsRefusedIn, patterns_of};

use crate::keep::Keep;
use crate::pattern::{Pattern, compile_pattern};
use crate::pattern_error::PatternError;
use std::alloc::Global;
use std::marker::Model;
use zot_digest::Words;

/// A keep rule with its built patterns. Contracts see the keep rule.
#[derive(Drop)]
pub struct Rule {
    patterns: Option<Vec<Pattern>>,
    count: Option<u64>,
    within: Option<u64>,
}

impl Model for Rule {
    ghost use Rattle.std.specs.Prelude.{option_map};
    ghost use Rattle.zot_retention.specs.declared.keep.Keep.{Keep};

    ghost Value = { Keep };

    ghost view = { λ r. record { patterns = option_map (λ built. built.items) r.patterns; count = r.count; within = r.within } };
}

impl Rule {
    /// The rule, built. `Pattern(0, place)` carries the place of the first pattern that `regex` refused for another cause than memory.
    pub fn compile(alloc: Global, keep: &Keep) -> Result<Rule, PatternError>
        ensures built { IfOk result (λ rule. rule ≡ keep.now) }
        ensures read { OnOk result (HasPatterns keep.now) }
        ensures refused { (rule place : ℕ) → result ≡ Err (PatternError.Pattern rule place) → IsRefusedIn keep.now place }
    {
        let patterns = match &keep.patterns {
            Some(texts) => Some(compile_patterns(alloc, texts.as_slice())?),
            None => None,
        };
        Ok(Rule {
            patterns,
            count: keep.count,
            within: keep.within,
        })
    }

    /// The built patterns.
    pub fn patterns(&self) -> &[Pattern]
        ensures { result.now ≡ patterns_of self.now }
    {
        match &self.patterns {
            Some(patterns) => patterns.as_slice(),
            None => &[],
        }
    }

    /// How many tags are kept by their pushes.
    pub fn count(&self) -> Option<u64>
        ensures { result ≡ self.now.count }
    {
        self.count
    }

    /// How many seconds after its push a tag is kept.
    pub fn within(&self) -> Option<u64>
        ensures { result ≡ self.now.within }
    {
        self.within
    }
}

// The patterns of these texts. `Pattern(0, place)` carries the place of the first that `regex` refused for another cause than memory.
fn compile_patterns(alloc: Global, texts: &[Words]) -> Result<Vec<Pattern>, PatternError>
    ensures built { IfOk result (λ built. built.items ≡ texts.now) }
    ensures read { OnOk result (All IsPattern texts.now) }
    ensures refused { (rule place : ℕ) → result ≡ Err (PatternError.Pattern rule place) → IsFirst IsPattern IsRefused texts.now place }
{
    let mut built = Vec::with_capacity(alloc, texts.len())?;
    for place in 0..texts.len() {
        let pattern = match compile_pattern(alloc, texts[place].as_str()) {
            Ok(pattern) => pattern,
            Err(error) => return Err(error.at_pattern(place)),
        };
        let Ok(()) = built.push(pattern) else {
            return Err(PatternError::NoMemory);
        };
    }
    Ok(built)
}
