//! The paths of a digest's objects and of its record.
ghost use Rattle.std.specs.Prelude.{◌≡◌, ◌++◌, IfOk, OnOk, codes, string_bytes};
ghost use Rattle.hex.specs.Hex.{encode_lower};
ghost use Rattle.zot_digest.specs.Digest.{IsDigest};
ghost use Rattle.zot_links.specs.Meaning.{object_path, record_path};

use std::alloc::{AllocError, Global};
use zot_digest::Digest;
use zot_names::RepoName;

/// The path of a digest's record.
#[tactic(auto, unfolding(crate::specs::Meaning::record_path))]
pub fn record_path(alloc: Global, digest: &Digest) -> Result<String, AllocError>
    ensures path { IfOk result (λ path. string_bytes path ≡ record_path digest.now) }
    ensures digest { OnOk result (IsDigest digest.now) }
{
    let folder = String::from_str(alloc, "_cache/sha256/")?;
    with_digits(alloc, folder, digest)
}

/// The path of the object that a repository has under a digest.
pub fn object_path(alloc: Global, digest: &Digest, name: &RepoName) -> Result<String, AllocError>
    ensures path { IfOk result (λ path. string_bytes path ≡ object_path digest.now name.now) }
    ensures digest { OnOk result (IsDigest digest.now) }
{
    let folder = folder_of(alloc, name)?;
    with_digits(alloc, folder, digest)
}

// The folder of a repository's objects.
fn folder_of(alloc: Global, name: &RepoName) -> Result<String, AllocError>
    ensures { IfOk result (λ folder. string_bytes folder ≡ name.now ++ codes "/blobs/sha256/") }
{
    let mut folder = String::from_str(alloc, name.as_str())?;
    folder.push_str("/blobs/sha256/")?;
    Ok(folder)
}

// A folder's path with the digits of a digest behind it.
fn with_digits(alloc: Global, folder: String, digest: &Digest) -> Result<String, AllocError>
    ensures path { IfOk result (λ path. string_bytes path ≡ string_bytes folder ++ encode_lower digest.now) }
    ensures digest { OnOk result (IsDigest digest.now) }
{
    let digits = hex::encode(alloc, digest.as_bytes())?;
    let mut path = folder;
    path.push_str(digits.as_str())?;
    Ok(path)
}
