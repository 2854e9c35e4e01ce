//! What a repository holds under a digest.
ghost use Rattle.std.specs.Prelude.{◌≡◌, ◌↔◌, IfOk, IfSome, IsNone, IsSome, IsSomeAnd, Some, length, option_map};
ghost use Rattle.std.specs.FinMap as map;
ghost use Rattle.zot_outside.specs.Faults.{HasStoreCause, OnMissing};
ghost use Rattle.zot_links.specs.Meaning.{StandsWhereTold, held, object_at};

use crate::links::Links;
use crate::paths::object_path;
use std::alloc::Global;
use zot_digest::Digest;
use zot_names::RepoName;
use zot_outside::{Store, StoreError, StoreResult, contradicted, read_whole};

/// What a repository holds under a digest: the bytes of its own object, or of its link's origin's. `None` where it is no holder.
pub fn contents<S: Store>(
    part: &mut S,
    alloc: Global,
    digest: &Digest,
    links: &Links,
    name: &RepoName,
) -> StoreResult<Option<Vec<u8>>>
    requires stands { StandsWhereTold (S.objects part.old) digest.now links.now }
    ensures cause { HasStoreCause (S.faults part.old) (S.faults part.new) result }
    ensures kept { S.objects part.new ≡ S.objects part.old }
    ensures missing { OnMissing result ⊥ }
    ensures ok { IfOk result (λ found. IfSome (S.objects part.old) (λ told. option_map (λ bytes. bytes.items) found ≡ held told digest.now name.now)) }
    ensures none { IfOk result (λ found. IsNone found ↔ IsNone (map.get links.now name.now)) }
{
    let Some(source) = links.source(name) else {
        return Ok(None);
    };
    let bytes = object_bytes(part, alloc, digest, source)?;
    Ok(Some(bytes))
}

/// How many bytes a repository holds under a digest. They aren't read. `None` where it is no holder.
pub fn size<S: Store>(
    part: &mut S,
    alloc: Global,
    digest: &Digest,
    links: &Links,
    name: &RepoName,
) -> StoreResult<Option<u64>>
    requires stands { StandsWhereTold (S.objects part.old) digest.now links.now }
    ensures cause { HasStoreCause (S.faults part.old) (S.faults part.new) result }
    ensures kept { S.objects part.new ≡ S.objects part.old }
    ensures missing { OnMissing result ⊥ }
    ensures ok { IfOk result (λ found. IfSome (S.objects part.old) (λ told. found ≡ option_map length (held told digest.now name.now))) }
    ensures none { IfOk result (λ found. IsNone found ↔ IsNone (map.get links.now name.now)) }
{
    let Some(source) = links.source(name) else {
        return Ok(None);
    };
    let bytes = object_size(part, alloc, digest, source)?;
    Ok(Some(bytes))
}

// The bytes of the object of a repository, which has one. A store whose answers contradict each other has failed.
fn object_bytes<S: Store>(
    part: &mut S,
    alloc: Global,
    digest: &Digest,
    name: &RepoName,
) -> StoreResult<Vec<u8>>
    requires { IfSome (S.objects part.old) (λ told. IsSome (object_at told digest.now name.now)) }
    ensures cause { HasStoreCause (S.faults part.old) (S.faults part.new) result }
    ensures kept { S.objects part.new ≡ S.objects part.old }
    ensures missing { OnMissing result ⊥ }
    ensures ok { IfOk result (λ bytes. IfSome (S.objects part.old) (λ told. object_at told digest.now name.now ≡ Some bytes.items)) }
{
    let path = object_path(alloc, digest, name)?;
    match read_whole(part, alloc, path.as_str()) {
        Ok(bytes) => Ok(bytes),
        Err(StoreError::Missing) => Err(contradicted(part)),
        Err(error) => Err(error),
    }
}

// How many bytes the object of a repository, which has one, has. A store whose answers contradict each other has failed.
fn object_size<S: Store>(
    part: &mut S,
    alloc: Global,
    digest: &Digest,
    name: &RepoName,
) -> StoreResult<u64>
    requires { IfSome (S.objects part.old) (λ told. IsSome (object_at told digest.now name.now)) }
    ensures cause { HasStoreCause (S.faults part.old) (S.faults part.new) result }
    ensures kept { S.objects part.new ≡ S.objects part.old }
    ensures missing { OnMissing result ⊥ }
    ensures ok { IfOk result (λ n. IfSome (S.objects part.old) (λ told. IsSomeAnd (object_at told digest.now name.now) (λ bytes. n ≡ length bytes))) }
{
    let path = object_path(alloc, digest, name)?;
    match part.size(alloc, path.as_str()) {
        Ok(n) => Ok(n),
        Err(StoreError::Missing) => Err(contradicted(part)),
        Err(error) => Err(error),
    }
}
