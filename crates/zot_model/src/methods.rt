//! The methods that a path has.

/// The methods that one kind of path has (OCI Distribution Specification, "Endpoints").
#[derive(Clone, Copy, Debug, PartialEq, Eq)]
pub enum Methods {
    /// GET and HEAD: the base route, and a blob that isn't deleted.
    Read,
    /// GET: the lists.
    List,
    /// GET, HEAD, PUT and DELETE: a manifest.
    Manifest,
    /// POST: the uploads of a repository.
    Begin,
    /// GET, PATCH and PUT: an upload.
    Upload,
    /// GET, HEAD and DELETE: a blob.
    Blob,
}
