//! Keep rules.
use crate::words_list::WordsList;

/// A rule that keeps tags: those that it finds and that meet one of its criteria, or have none to meet.
#[derive(Debug, Drop)]
pub struct Keep {
    /// The patterns that find tags, as regular expressions; without patterns each tag is found.
    pub patterns: Option<WordsList>,
    /// How many of the tags that it finds are kept, the ones that were pushed last.
    pub count: Option<u64>,
    /// How many seconds after its push a tag is kept.
    pub within: Option<u64>,
}
