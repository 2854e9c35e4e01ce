//! Which part of a cluster's storage owns a path.
ghost use Rattle.std.specs.Prelude.{◌≡◌, ◌≢◌, ◌++◌, ◌↔◌, ℕ, List, IfOk, IsTrue, MatchOption, option_map};
ghost use Rattle.zot_fakes.specs.Owners.{AreDigitsOf, HasMembers, IsCut, IsFolderOfCluster, IsFolderOfDigests, IsOfRepository, Owns, RowOwns, ShardOwns};
ghost use Rattle.zot_names.specs.Name.{IsName};
ghost use Rattle.zot_siphash.specs.Owners.{AreMembers};

use std::alloc::{AllocError, Global};
use zot_digest::parse_digest;
use zot_names::is_name;
use zot_siphash::row_of;

/// How many digits the name of a digest's file has.
const DIGITS: usize = 64;

/// How many shards of digests there are.
pub const SHARDS: u32 = 16;

/// A part of a cluster's storage.
#[derive(Clone, Copy)]
pub enum Part {
    /// That of a row, in a cluster of so many members whose hash has this key.
    Row {
        key: [u8; 16],
        members: u32,
        row: u32,
    },
    /// That of a shard of digests.
    Shard(u32),
}

/// Whether a part owns a path. It fails only where memory runs out.
pub fn owns(alloc: Global, part: &Part, path: &str) -> Result<bool, AllocError>
    requires { HasMembers part.now }
    ensures { IfOk result (λ owned. IsTrue owned ↔ Owns part.now path.now) }
{
    match part {
        Part::Row { key, members, row } => Ok(row_owns(path, key, *members, *row)),
        Part::Shard(shard) => shard_owns(alloc, path, *shard),
    }
}

// Whether the row owns a path: its repository's marker or index.
fn row_owns(path: &str, key: &[u8; 16], members: u32, row: u32) -> bool
    requires { AreMembers members }
    ensures { IsTrue result ↔ RowOwns key.now members row path.now }
{
    match repository_of(path) {
        Some(name) => row_of(key, name.as_bytes(), members) == row,
        None => false,
    }
}

// The repository whose marker or index has a path.
#[tactic(auto, unfolding(crate::specs::Owners::marker_path, crate::specs::Owners::index_path))]
fn repository_of(path: &str) -> Option<&str>
    ensures { MatchOption result ((name : List ℕ) → ¬ IsOfRepository name path.now) (λ name. IsOfRepository name.now path.now) }
{
    match name_before(path, "/oci-layout") {
        Some(name) => Some(name),
        None => name_before(path, "/index.json"),
    }
}

// The repository's name that stands before the end of a path, if there is one.
fn name_before<'p>(path: &'p str, end: &str) -> Option<&'p str>
    ensures { MatchOption result ((name : List ℕ) → IsName name → path.now ≢ name ++ end.now) (λ name. IsName name.now × (path.now ≡ name.now ++ end.now)) }
{
    match path.strip_suffix(end) {
        Some(name) if is_name(name) => Some(name),
        _ => None,
    }
}

// Whether the shard owns a path: a file with the name of one of its digests, in a folder of such files.
fn shard_owns(alloc: Global, path: &str, shard: u32) -> Result<bool, AllocError>
    ensures { IfOk result (λ owned. IsTrue owned ↔ ShardOwns shard path.now) }
{
    match cut(path) {
        Some((folder, digits)) => is_file_of_shard(alloc, folder, digits, shard),
        None => Ok(false),
    }
}

// Whether a file of this folder and name is one of the shard.
fn is_file_of_shard(
    alloc: Global,
    folder: &str,
    digits: &str,
    shard: u32,
) -> Result<bool, AllocError>
    ensures { IfOk result (λ is. IsTrue is ↔ (IsFolderOfDigests folder.now × AreDigitsOf shard digits.now)) }
{
    if is_folder_of_digests(folder) {
        is_of_shard(alloc, digits, shard)
    } else {
        Ok(false)
    }
}

// The folder of a path, with its last slash, and the file's name, where that has as many bytes as a digest has digits.
fn cut(path: &str) -> Option<(&str, &str)>
    ensures { IsCut path.now (option_map (λ c. (c.0.now, c.1.now)) result) }
{
    let Some(at) = path.len().checked_sub(DIGITS) else {
        return None;
    };
    match path.split_at_checked(at) {
        Some(parts) => Some(parts),
        None => None,
    }
}

// Whether the files of a folder may have the names of digests: it has records, landed blobs or the blobs of a repository.
fn is_folder_of_digests(folder: &str) -> bool
    ensures { IsTrue result ↔ IsFolderOfDigests folder.now }
{
    is_folder_of_cluster(folder) || name_before(folder, "/blobs/sha256/").is_some()
}

// Whether this is the folder of the records or of the blobs that landed.
fn is_folder_of_cluster(folder: &str) -> bool
    ensures { IsTrue result ↔ IsFolderOfCluster folder.now }
{
    folder == "_cache/sha256/" || folder == "_landed/sha256/"
}

// Whether these are the digits of a digest of the shard.
fn is_of_shard(alloc: Global, digits: &str, shard: u32) -> Result<bool, AllocError>
    ensures { IfOk result (λ is. IsTrue is ↔ AreDigitsOf shard digits.now) }
{
    let text = format!(in alloc; "sha256:{digits}")?;
    match parse_digest(text.as_str()) {
        Ok(digest) => Ok(digest.as_bytes()[0] as u32 % SHARDS == shard),
        Err(_) => Ok(false),
    }
}
