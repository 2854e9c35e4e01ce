//! The limits of requests and of what a repository holds.

/// The most bytes that a message's body has.
pub const BODY_LIMIT: u64 = 67_108_864;

/// The most bytes that a manifest has.
pub const MANIFEST_LIMIT: usize = 4_194_304;

/// The most bytes that an upload has.
pub const UPLOAD_LIMIT: u64 = 67_108_864;

/// The most uploads that a repository has open.
pub const OPEN_LIMIT: usize = 1_000;

/// The last id of an upload.
pub const LAST_ID: u64 = u64::MAX;
