//! The calls of a store on the objects of a digest.
ghost use Rattle.std.specs.Prelude.{◌≡◌, ◌↔◌, true, None, Some, IfOk, IfSome, IsSome, IsTrue, OnErr, OnOk};
ghost use Rattle.zot_outside.specs.Faults.{HasStoreCause, OnMissing};
ghost use Rattle.std.specs.FinMap as map;
ghost use Rattle.zot_outside.specs.Objects.{ChangesAt, Copies, Told};
ghost use Rattle.zot_links.specs.Changes.{RecordsLinks, SaysLinks, SetsObject, WritesRecord};
ghost use Rattle.zot_links.specs.Meaning.{object_at, record_in};
ghost use Rattle.zot_links.specs.Records.{record_of};

use crate::links::Links;
use crate::paths::{object_path, record_path};
use crate::record::record_text;
use std::alloc::{AllocError, Global};
use zot_digest::Digest;
use zot_names::RepoName;
use zot_outside::{Store, StoreError, StoreResult, contradicted, has_bytes};

/// Sets the object of a repository.
pub fn put_object<S: Store>(
    part: &mut S,
    alloc: Global,
    digest: &Digest,
    name: &RepoName,
    bytes: &[u8],
) -> StoreResult<()>
    ensures cause { HasStoreCause (S.faults part.old) (S.faults part.new) result }
    ensures ok { OnOk result (Told (S.objects part.old) (S.objects part.new) (λ old new. SetsObject old digest.now name.now (Some bytes.now) new)) }
    ensures err { OnErr result (S.objects part.new ≡ S.objects part.old) }
    ensures missing { OnMissing result ⊥ }
{
    let path = object_path(alloc, digest, name)?;
    part.put(alloc, path.as_str(), bytes)
}

/// Removes the object of a repository, if there is one.
pub fn delete_object<S: Store>(
    part: &mut S,
    alloc: Global,
    digest: &Digest,
    name: &RepoName,
) -> StoreResult<()>
    ensures cause { HasStoreCause (S.faults part.old) (S.faults part.new) result }
    ensures ok { OnOk result (Told (S.objects part.old) (S.objects part.new) (λ old new. SetsObject old digest.now name.now None new)) }
    ensures err { OnErr result (S.objects part.new ≡ S.objects part.old) }
    ensures missing { OnMissing result ⊥ }
{
    let path = object_path(alloc, digest, name)?;
    delete_at(part, alloc, path.as_str())
}

// Removes the object at a path, if there is one.
fn delete_at<S: Store>(part: &mut S, alloc: Global, path: &str) -> StoreResult<()>
    ensures cause { HasStoreCause (S.faults part.old) (S.faults part.new) result }
    ensures ok { OnOk result (Told (S.objects part.old) (S.objects part.new) (λ old new. ChangesAt old path.now None new)) }
    ensures err { OnErr result (S.objects part.new ≡ S.objects part.old) }
    ensures missing { OnMissing result ⊥ }
{
    match part.delete(alloc, path) {
        Err(StoreError::Missing) => Ok(()),
        deleted => deleted,
    }
}

/// Sets the object of one repository to that of another, which has one. A store whose answers contradict each other has failed.
pub fn copy_object<S: Store>(
    part: &mut S,
    alloc: Global,
    digest: &Digest,
    from: &RepoName,
    to: &RepoName,
) -> StoreResult<()>
    requires { IfSome (S.objects part.old) (λ told. IsSome (object_at told digest.now from.now)) }
    ensures cause { HasStoreCause (S.faults part.old) (S.faults part.new) result }
    ensures ok { OnOk result (Told (S.objects part.old) (S.objects part.new) (λ old new. SetsObject old digest.now to.now (object_at old digest.now from.now) new)) }
    ensures err { OnErr result (S.objects part.new ≡ S.objects part.old) }
    ensures missing { OnMissing result ⊥ }
{
    let source = object_path(alloc, digest, from)?;
    let path = object_path(alloc, digest, to)?;
    copy_at(part, alloc, source.as_str(), path.as_str())
}

// Sets the object at a path to that at another, which has one.
fn copy_at<S: Store>(part: &mut S, alloc: Global, from: &str, to: &str) -> StoreResult<()>
    requires { IfSome (S.objects part.old) (λ told. IsSome (map.get told from.now)) }
    ensures cause { HasStoreCause (S.faults part.old) (S.faults part.new) result }
    ensures ok { OnOk result (Copies (S.objects part.old) from.now to.now (S.objects part.new)) }
    ensures err { OnErr result (S.objects part.new ≡ S.objects part.old) }
    ensures missing { OnMissing result ⊥ }
{
    match part.copy(alloc, from, to) {
        Ok(()) => Ok(()),
        Err(StoreError::Missing) => Err(contradicted(part)),
        Err(error) => Err(error),
    }
}

/// Whether the object of a repository, which has one, has exactly these bytes. It is read in pieces of at most 65,536 bytes. A store whose answers contradict each other has failed.
pub fn object_is<S: Store>(
    part: &mut S,
    alloc: Global,
    digest: &Digest,
    name: &RepoName,
    bytes: &[u8],
) -> StoreResult<bool>
    requires { IfSome (S.objects part.old) (λ told. IsSome (object_at told digest.now name.now)) }
    ensures cause { HasStoreCause (S.faults part.old) (S.faults part.new) result }
    ensures kept { S.objects part.new ≡ S.objects part.old }
    ensures ok { IfOk result (λ same. IfSome (S.objects part.old) (λ told. IsTrue same ↔ (object_at told digest.now name.now ≡ Some bytes.now))) }
    ensures missing { OnMissing result ⊥ }
{
    let path = object_path(alloc, digest, name)?;
    is_at(part, alloc, path.as_str(), bytes)
}

// Whether the object at a path, which has one, has exactly these bytes.
fn is_at<S: Store>(part: &mut S, alloc: Global, path: &str, bytes: &[u8]) -> StoreResult<bool>
    requires { IfSome (S.objects part.old) (λ told. IsSome (map.get told path.now)) }
    ensures cause { HasStoreCause (S.faults part.old) (S.faults part.new) result }
    ensures kept { S.objects part.new ≡ S.objects part.old }
    ensures ok { IfOk result (λ same. IfSome (S.objects part.old) (λ told. IsTrue same ↔ (map.get told path.now ≡ Some bytes.now))) }
    ensures missing { OnMissing result ⊥ }
{
    match has_bytes(part, alloc, path, bytes) {
        Ok(same) => Ok(same),
        Err(StoreError::Missing) => Err(contradicted(part)),
        Err(error) => Err(error),
    }
}

/// Sets a digest's record to the lines of these holders, or deletes it where there are none. It isn't put where it stands so.
pub fn put_record<S: Store>(
    part: &mut S,
    alloc: Global,
    digest: &Digest,
    links: &Links,
) -> StoreResult<()>
    ensures cause { HasStoreCause (S.faults part.old) (S.faults part.new) result }
    ensures ok { OnOk result (Told (S.objects part.old) (S.objects part.new) (λ old new. RecordsLinks old digest.now links.now new)) }
    ensures err { OnErr result (S.objects part.new ≡ S.objects part.old) }
    ensures missing { OnMissing result ⊥ }
{
    let text = text_of(alloc, links)?;
    let path = record_path(alloc, digest)?;
    if record_is(part, alloc, path.as_str(), text.as_slice())? {
        return Ok(());
    }
    write_record(part, alloc, path.as_str(), text.as_slice())
}

// The text of the record of these holders.
fn text_of(alloc: Global, links: &Links) -> Result<Vec<u8>, AllocError>
    ensures { IfOk result (λ text. SaysLinks text.items links.now) }
{
    let lines = links.lines(alloc)?;
    record_text(alloc, lines.as_slice())
}

// Whether the record at a path says what this text does.
fn record_is<S: Store>(part: &mut S, alloc: Global, path: &str, text: &[u8]) -> StoreResult<bool>
    ensures cause { HasStoreCause (S.faults part.old) (S.faults part.new) result }
    ensures kept { S.objects part.new ≡ S.objects part.old }
    ensures ok { IfOk result (λ same. IfSome (S.objects part.old) (λ told. same ≡ true → record_in (map.get told path.now) ≡ record_of text.now)) }
    ensures missing { OnMissing result ⊥ }
{
    match has_bytes(part, alloc, path, text) {
        Err(StoreError::Missing) => Ok(text.is_empty()),
        compared => compared,
    }
}

// Sets the record at a path to a text, or deletes it where that is empty.
fn write_record<S: Store>(part: &mut S, alloc: Global, path: &str, text: &[u8]) -> StoreResult<()>
    ensures cause { HasStoreCause (S.faults part.old) (S.faults part.new) result }
    ensures ok { OnOk result (Told (S.objects part.old) (S.objects part.new) (λ old new. WritesRecord old path.now text.now new)) }
    ensures err { OnErr result (S.objects part.new ≡ S.objects part.old) }
    ensures missing { OnMissing result ⊥ }
{
    if text.is_empty() {
        delete_at(part, alloc, path)
    } else {
        part.put(alloc, path, text)
    }
}

/// Sets a digest's record to the lines of these holders, of which there are some, and which it doesn't say.
pub fn replace_record<S: Store>(
    part: &mut S,
    alloc: Global,
    digest: &Digest,
    links: &Links,
) -> StoreResult<()>
    ensures cause { HasStoreCause (S.faults part.old) (S.faults part.new) result }
    ensures ok { OnOk result (Told (S.objects part.old) (S.objects part.new) (λ old new. RecordsLinks old digest.now links.now new)) }
    ensures err { OnErr result (S.objects part.new ≡ S.objects part.old) }
    ensures missing { OnMissing result ⊥ }
{
    let text = text_of(alloc, links)?;
    let path = record_path(alloc, digest)?;
    write_record(part, alloc, path.as_str(), text.as_slice())
}
