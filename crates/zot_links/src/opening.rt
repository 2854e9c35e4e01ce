//! What the objects of a digest stand for, found when a store is opened.
ghost use Rattle.std.specs.Prelude.{◌≡◌, ◌↔◌, ℕ, List, None, Some, IfOk, IfSome, IsSome, IsTrue, OnOk};
ghost use Rattle.std.specs.FinMap as map;
ghost use Rattle.zot_outside.specs.Objects.{bytes_at};
ghost use Rattle.zot_links.specs.Meaning.{Stands, line_among, origin_of, record_path};
ghost use Rattle.zot_links.specs.Opening.{Dangles, HasLinksCause, HasObjects, LacksMeaning, OnBad, Opens, Strays};
ghost use Rattle.zot_links.specs.Records.{AreLines, line_in, record_of};

use crate::form::Form;
use crate::links::{Links, named, put};
use crate::links_error::LinksError;
use crate::paths::record_path;
use crate::reading::read_record;
use crate::record_error::RecordError;
use crate::record_line::RecordLine;
use std::alloc::{AllocError, Global};
use std::collections::BTreeMap;
use zot_digest::Digest;
use zot_names::RepoName;
use zot_outside::{Store, StoreError, read_whole};

/// The holders of a digest that its objects stand for. Given are the repositories that have an object under it; each gets the origin that its line of the record names. Lines of other repositories are stale and stand for nothing.
///
/// `Bad` comes exactly where the record isn't one, or a link's origin isn't whole or has no object. `Failed` comes only where the part failed. No object is changed.
pub fn open_links<S: Store>(
    part: &mut S,
    alloc: Global,
    digest: &Digest,
    found: &Links,
) -> Result<Links, LinksError>
    ensures cause { HasLinksCause (S.faults part.old) (S.faults part.new) result }
    ensures kept { S.objects part.new ≡ S.objects part.old }
    ensures ok { IfOk result (λ links. IfSome (S.objects part.old) (λ told. HasObjects told digest.now found.now → Stands told digest.now links)) }
    ensures bad { OnBad result (λ text. IfSome (S.objects part.old) (λ told. HasObjects told digest.now found.now → LacksMeaning told digest.now text)) }
    ensures names { IfOk result (λ links. (name : List ℕ) → IsSome (map.get links name) ↔ IsSome (map.get found.now name)) }
{
    let text = read_text(part, alloc, digest)?;
    match links_of(alloc, text.as_slice(), found) {
        Ok(links) => Ok(links),
        Err(RecordError::Bad) => Err(LinksError::Bad(text)),
        Err(RecordError::NoMemory) => Err(LinksError::NoMemory),
    }
}

// The text of a digest's record, which is empty where there is none.
fn read_text<S: Store>(part: &mut S, alloc: Global, digest: &Digest) -> Result<Vec<u8>, LinksError>
    ensures cause { HasLinksCause (S.faults part.old) (S.faults part.new) result }
    ensures kept { S.objects part.new ≡ S.objects part.old }
    ensures ok { IfOk result (λ text. IfSome (S.objects part.old) (λ told. text.items ≡ bytes_at told (record_path digest.now))) }
    ensures bad { OnBad result (λ _. ⊥) }
{
    let path = record_path(alloc, digest)?;
    match read_whole(part, alloc, path.as_str()) {
        Ok(text) => Ok(text),
        Err(StoreError::Missing) => Ok(Vec::new(alloc)),
        Err(StoreError::Failed) => Err(LinksError::Failed),
        Err(StoreError::NoMemory) => Err(LinksError::NoMemory),
    }
}

// The holders that a record's text makes of the repositories with objects.
fn links_of(alloc: Global, text: &[u8], found: &Links) -> Result<Links, RecordError>
    ensures read { OnOk result (IsSome (record_of text.now)) }
    ensures ok { IfOk result (λ links. Opens (line_among (record_of text.now)) found.now links) }
    ensures bad { result ≡ Err RecordError.Bad → IsSome (record_of text.now) → Strays (line_among (record_of text.now)) found.now }
{
    let lines = read_record(alloc, text)?;
    let lines = tree_of(alloc, lines)?;
    with_origins(alloc, &lines, found)
}

// The lines of a record by their repositories.
fn tree_of(alloc: Global, lines: Vec<RecordLine>) -> Result<Links, AllocError>
    requires { AreLines lines.items }
    ensures { IfOk result (λ tree. (name : List ℕ) → map.get tree name ≡ line_in lines.items name) }
{
    let mut tree = BTreeMap::new(alloc);
    for line in lines {
        put(&mut tree, line.name, line.origin)?;
    }
    Ok(Links::of(tree))
}

// The repositories with objects, each with the origin that its line names.
fn with_origins(alloc: Global, lines: &Links, found: &Links) -> Result<Links, RecordError>
    ensures ok { IfOk result (λ links. Opens (map.get lines.now) found.now links) }
    ensures bad { result ≡ Err RecordError.Bad → Strays (map.get lines.now) found.now }
{
    let mut links = Links::new(alloc);
    for (name, _) in found.tree().iter() {
        let holder = named(alloc, name)?;
        let origin = origin_for(alloc, lines, found, name)?;
        links.set(holder, origin)?;
    }
    Ok(links)
}

// The origin that the line of a repository names.
fn origin_for(
    alloc: Global,
    lines: &Links,
    found: &Links,
    name: &RepoName,
) -> Result<Option<RepoName>, RecordError>
    ensures origin { IfOk result (λ origin. origin ≡ origin_of (map.get lines.now name.now)) }
    ensures whole { IfOk result (λ origin. IfSome origin (λ o. IsSome (map.get found.now o) × (map.get lines.now o ≡ Some None))) }
    ensures bad { result ≡ Err RecordError.Bad → Dangles (map.get lines.now) found.now name.now }
{
    let Some(Some(origin)) = lines.get(name) else {
        return Ok(None);
    };
    if !may_be_origin(lines, found, origin) {
        return Err(RecordError::Bad);
    }
    Ok(Some(origin.copy(alloc)?))
}

// Whether a repository has an object, and the line of a whole one.
fn may_be_origin(lines: &Links, found: &Links, name: &RepoName) -> bool
    ensures { IsTrue result ↔ (IsSome (map.get found.now name.now) × (map.get lines.now name.now ≡ Some None)) }
{
    match lines.form(name) {
        Form::Whole => found.get(name).is_some(),
        Form::Absent | Form::Link => false,
    }
}
