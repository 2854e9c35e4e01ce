//! How a repository may come to hold bytes.
use zot_names::RepoName;

/// How a repository may come to hold bytes.
#[derive(Drop)]
pub enum Aim {
    /// It holds them already.
    Same,
    /// By an object of its own.
    Whole,
    /// By a link to a whole holder that has them.
    Link(RepoName),
}
