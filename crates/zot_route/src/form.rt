//! The forms of a path.

/// The forms of a path after `/v2/` (OCI Distribution Specification, "Endpoints").
#[derive(Clone, Copy, Debug)]
pub enum Form {
    /// Nothing.
    Base,
    /// `NAME/tags/list`.
    Tags,
    /// `NAME/referrers/TEXT`.
    Referrers,
    /// `NAME/manifests/TEXT`.
    Manifest,
    /// `NAME/blobs/uploads` or `NAME/blobs/uploads/`.
    Uploads,
    /// `NAME/blobs/uploads/TEXT`, where the text isn't empty.
    Upload,
    /// `NAME/blobs/TEXT`, where the text isn't `uploads`.
    Blob,
}
