//! A line of a cache record.
use zot_names::RepoName;

/// A line of a cache record: what the object of a repository is.
#[derive(Debug, Drop)]
pub struct RecordLine {
    /// The repository whose object it is.
    pub name: RepoName,
    /// The repository whose object a link stands for, or `None` where the object is whole.
    pub origin: Option<RepoName>,
}
