//! A request.
use crate::call::Call;
use zot_names::RepoName;

/// A request: what is asked, and of which repository.
#[derive(Debug, Drop, PartialEq, Eq)]
pub struct Request {
    /// The repository. Only `Base` is asked of none.
    pub name: Option<RepoName>,
    pub call: Call,
    /// Whether another member handed the request on.
    pub hop: bool,
}
