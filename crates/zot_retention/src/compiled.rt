//! Policies with their built patterns.
ghost use Rattle.std.specs.Prelude.{◌≡◌, ◌↔◌, ℕ, IfOk, OnOk, IsTrue, All, Any, option_map, MatchOption};
ghost use Rattle.zot_names.specs.Glob.{Matches};
ghost use Rattle.zot_retention.specs.Policies.{HasPatterns, IsFirst, IsFor, IsPolicyOf, IsReadable, IsRefusedAt, IsRefusedIn};

use crate::keep::Keep;
use crate::pattern_error::PatternError;
use crate::policy::Policy;
use crate::rule::Rule;
use crate::words_list::WordsList;
use std::alloc::Global;
use std::marker::Model;
use zot_digest::Words;
use zot_names::{RepoName, glob_matches};

/// A policy with its built patterns. Contracts see the policy.
#[derive(Drop)]
pub struct Compiled {
    globs: WordsList,
    delete_untagged: bool,
    rules: Option<Vec<Rule>>,
}

impl Model for Compiled {
    ghost use Rattle.std.specs.Prelude.{option_map};
    ghost use Rattle.zot_retention.specs.declared.policy.Policy.{Policy};

    ghost Value = { Policy };

    ghost view = { λ c. record { globs = c.globs; delete_untagged = c.delete_untagged; keep = option_map (λ rules. rules.items) c.rules } };
}

impl Compiled {
    /// Whether the policy is for this name: whether one of its globs matches it. Takes no memory.
    pub fn is_for(&self, name: &RepoName) -> bool
        ensures { IsTrue result ↔ IsFor name.now self.now }
    {
        some_matches(self.globs.as_slice(), name)
    }

    /// Whether manifests go that no tag, and no manifest that stays, holds.
    pub fn deletes_untagged(&self) -> bool
        ensures { result ≡ self.now.delete_untagged }
    {
        self.delete_untagged
    }

    // The keep rules; where there is no list of rules, each tag is kept.
    pub(crate) fn rules(&self) -> Option<&[Rule]>
        ensures { option_map (λ rules. rules.now) result ≡ self.now.keep }
    {
        match &self.rules {
            Some(rules) => Some(rules.as_slice()),
            None => None,
        }
    }
}

// Whether one of these globs matches the name.
fn some_matches(globs: &[Words], name: &RepoName) -> bool
    ensures { IsTrue result ↔ Any (λ glob. Matches glob name.now) globs.now }
{
    for glob in globs {
        if glob_matches(glob.as_str(), name.as_str()) {
            return true;
        }
    }
    false
}

/// The policy, built. `Pattern(i, j)` names the first pattern that `regex` refused for another cause than memory: the place i of its rule, and its place j in that rule.
/// `NoMemory` also stands for a place above 4,294,967,295.
pub fn compile(alloc: Global, policy: &Policy) -> Result<Compiled, PatternError>
    ensures built { IfOk result (λ compiled. compiled ≡ policy.now) }
    ensures read { OnOk result (IsReadable policy.now) }
    ensures refused { (rule pattern : ℕ) → result ≡ Err (PatternError.Pattern rule pattern) → IsRefusedAt policy.now rule pattern }
{
    let globs = policy.globs.copy(alloc)?;
    let rules = match &policy.keep {
        Some(rules) => Some(compile_rules(alloc, rules.as_slice())?),
        None => None,
    };
    Ok(Compiled {
        globs,
        delete_untagged: policy.delete_untagged,
        rules,
    })
}

// These rules, built, or the place of the first pattern that `regex` refused for another cause than memory.
fn compile_rules(alloc: Global, rules: &[Keep]) -> Result<Vec<Rule>, PatternError>
    ensures built { IfOk result (λ built. built.items ≡ rules.now) }
    ensures read { OnOk result (All HasPatterns rules.now) }
    ensures refused { (rule pattern : ℕ) → result ≡ Err (PatternError.Pattern rule pattern) →
        IsFirst HasPatterns (λ keep. IsRefusedIn keep pattern) rules.now rule }
{
    let mut built = Vec::with_capacity(alloc, rules.len())?;
    for place in 0..rules.len() {
        let rule = match Rule::compile(alloc, &rules[place]) {
            Ok(rule) => rule,
            Err(error) => return Err(error.at_rule(place)),
        };
        let Ok(()) = built.push(rule) else {
            return Err(PatternError::NoMemory);
        };
    }
    Ok(built)
}

/// The policy of a name: the first that is for it. Takes no memory.
pub fn policy_for<'a>(policies: &'a [Compiled], name: &RepoName) -> Option<&'a Compiled>
    ensures { MatchOption result (All (λ policy. ¬ IsFor name.now policy) policies.now) (λ policy. IsPolicyOf name.now policies.now policy.now) }
{
    for policy in policies {
        if policy.is_for(name) {
            return Some(policy);
        }
    }
    None
}
