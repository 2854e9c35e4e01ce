//! A call on a row that waits for the pool.
use zot_names::RepoName;
use zot_row::Stage;

/// A call on a row that waits for the pool.
#[derive(Drop)]
pub struct Waiting {
    /// The repository that it is on.
    pub name: RepoName,
    /// What it waits for, and what it goes on with.
    pub stage: Stage,
    /// The moment at which it began, in seconds.
    pub moment: u64,
}
