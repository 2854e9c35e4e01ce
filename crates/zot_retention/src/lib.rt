//! Which tags of a repository a policy keeps: by patterns, by how many tags were pushed later, and by seconds since the push.
//!
//! `compile(alloc, &policy)` builds the patterns of a policy, and names the first that `regex` refuses. `policy_for(&policies, &name)`
//! is the policy of a name, and `kept_tags(alloc, policy, &tags, moment)` the tags that it keeps at a moment, tag by tag those of its
//! definition. `compile_pattern(alloc, "^v[0-9]+$")` builds one pattern, and its `finds(alloc, "v12")` is true.
#![tactic(auto)]

mod compiled;
mod first;
mod found;
mod keep;
mod keep_list;
mod kept;
mod laws;
mod marks;
mod pattern;
mod pattern_error;
mod policy;
mod recency;
mod rule;
mod tag_row;
mod words_list;

pub use crate::compiled::{Compiled, compile, policy_for};
pub use crate::keep::Keep;
pub use crate::keep_list::KeepList;
pub use crate::kept::{kept_marks, kept_tags};
pub use crate::laws::{kept_tags_stay, time_keeps_no_more};
pub use crate::pattern::{Pattern, compile_pattern};
pub use crate::pattern_error::PatternError;
pub use crate::policy::Policy;
pub use crate::tag_row::TagRow;
pub use crate::words_list::WordsList;
