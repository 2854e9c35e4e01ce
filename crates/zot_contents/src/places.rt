//! Which paths of a store have the objects of digests.
ghost use Rattle.std.specs.Prelude.{◌≡◌, ◌∷◌, ◌++◌, IfOk};
ghost use Rattle.hex.specs.Hex.{encode_lower};
ghost use Rattle.zot_digest.specs.Digest.{IsDigest};
ghost use Rattle.zot_contents.specs.Places.{IsDigestOf, IsPlaceOf};

use std::alloc::{AllocError, Global};
use zot_digest::{Digest, parse_digest};
use zot_names::{RepoName, is_name};

/// An object of a digest in a store.
#[derive(Debug, Drop)]
pub struct Place {
    /// The digest.
    pub digest: Digest,
    /// The repository whose object it is, or `None` for the digest's record.
    pub name: Option<RepoName>,
}

/// The object of a digest that has a path: one of a repository, or the digest's record. All other paths have none. It fails only where memory runs out.
pub fn place_of(alloc: Global, path: &str) -> Result<Option<Place>, AllocError>
    ensures { IfOk result (λ place. IsPlaceOf path.now place) }
{
    let Some((folder, digits)) = path.rsplit_once('/') else {
        return Ok(None);
    };
    match digest_from(alloc, digits)? {
        Some(digest) => place_in(alloc, folder, digest),
        None => Ok(None),
    }
}

// The digest that has these digits.
fn digest_from(alloc: Global, digits: &str) -> Result<Option<Digest>, AllocError>
    ensures { IfOk result (λ digest. IsDigestOf digits.now digest) }
{
    let text = format!(in alloc; "sha256:{digits}")?;
    match parse_digest(text.as_str()) {
        Ok(digest) => {
            let _ = digest.as_bytes();
            Ok(Some(digest))
        }
        Err(_) => Ok(None),
    }
}

// The object of a digest that lies in a folder.
fn place_in(alloc: Global, folder: &str, digest: Digest) -> Result<Option<Place>, AllocError>
    requires { IsDigest digest }
    ensures { IfOk result (λ place. IsPlaceOf (folder.now ++ 47 ∷ encode_lower digest) place) }
{
    if folder == "_cache/sha256" {
        return Ok(Some(Place { digest, name: None }));
    }
    let Some(text) = folder.strip_suffix("/blobs/sha256") else {
        return Ok(None);
    };
    if !is_name(text) {
        return Ok(None);
    }
    let name = RepoName::new(String::from_str(alloc, text)?);
    Ok(Some(Place {
        digest,
        name: Some(name),
    }))
}
