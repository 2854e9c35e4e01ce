//! Why a policy isn't built.
ghost use Rattle.std.specs.Prelude.{◌≡◌, ℕ};

use std::alloc::AllocError;
use thiserror::Error;

/// Why a policy isn't built.
#[derive(Clone, Copy, Debug, PartialEq, Eq, Error)]
pub enum PatternError {
    /// `regex` refused a pattern for another cause than memory: the place of its rule among the policy's rules, and its place among that rule's patterns, both from 0.
    #[error("a pattern that isn't one")]
    Pattern(u32, u32),
    /// Memory ran out.
    #[error("out of memory")]
    NoMemory,
}

impl PatternError {
    // The same error, at this place among a rule's patterns.
    pub(crate) fn at_pattern(self, place: usize) -> PatternError
        ensures { (rule pattern : ℕ) → result ≡ PatternError.Pattern rule pattern →
            (pattern ≡ place) × ((other : ℕ) × (self ≡ PatternError.Pattern rule other)) }
    {
        match self {
            PatternError::Pattern(rule, _) => match u32::try_from(place) {
                Ok(pattern) => PatternError::Pattern(rule, pattern),
                Err(_) => PatternError::NoMemory,
            },
            PatternError::NoMemory => PatternError::NoMemory,
        }
    }

    // The same error, at this place among a policy's rules.
    pub(crate) fn at_rule(self, place: usize) -> PatternError
        ensures { (rule pattern : ℕ) → result ≡ PatternError.Pattern rule pattern →
            (rule ≡ place) × ((other : ℕ) × (self ≡ PatternError.Pattern other pattern)) }
    {
        match self {
            PatternError::Pattern(_, pattern) => match u32::try_from(place) {
                Ok(rule) => PatternError::Pattern(rule, pattern),
                Err(_) => PatternError::NoMemory,
            },
            PatternError::NoMemory => PatternError::NoMemory,
        }
    }
}

impl From<AllocError> for PatternError {
    ghost use Rattle.std.specs.Prelude.{◌≡◌};
    ghost use Rattle.zot_retention.specs.declared.pattern_error.PatternError.TheVariants.{NoMemory};

    ghost from_gives = { λ _ e. e ≡ NoMemory };

    fn from(_: AllocError) -> PatternError {
        PatternError::NoMemory
    }
}
