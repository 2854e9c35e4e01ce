//! Policies.
use crate::keep_list::KeepList;
use crate::words_list::WordsList;

/// Which tags and manifests of some repositories stay.
#[derive(Debug, Drop)]
pub struct Policy {
    /// The globs of the repositories' names.
    pub globs: WordsList,
    /// Whether manifests go that no tag, and no manifest that stays, holds.
    pub delete_untagged: bool,
    /// The rules that keep tags; where there is no list of rules, each tag is kept.
    pub keep: Option<KeepList>,
}
