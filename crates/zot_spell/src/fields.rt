//! The fields of replies.
ghost use Rattle.std.specs.Prelude.{◌≡◌, ◌++◌, ◌∷◌, [], OnOk, codes};
ghost use Rattle.zot_digest.specs.Digest.{digest_text};
ghost use Rattle.zot_spell.specs.Fields.{closing_fields, digest_field, filter_fields, length_fields, link_fields, location_field, methods_text, upload_fields};
ghost use Rattle.zot_spell.specs.Heads.{field_of};

use crate::field::{Field, add_field, add_length};
use crate::field_name::FieldName;
use crate::texts::{place, prefixed};
use std::alloc::{AllocError, Global};
use zot_digest::Digest;
use zot_model::Methods;
use zot_names::{Tag, UploadId};

/// Adds a field of this name that names a digest.
pub fn add_digest(
    alloc: Global,
    fields: &mut Vec<Field>,
    name: FieldName,
    digest: &Digest,
) -> Result<(), AllocError>
    ensures { OnOk result (fields.new.items ≡ fields.old.items ++ (field_of name (digest_text digest.now) ∷ [])) }
{
    let text = digest.text(alloc)?;
    add_field(alloc, fields, name, text.as_str())
}

/// Adds the field that names the place of what was made, under this path of a repository, and the one that names its digest.
pub fn add_made(
    alloc: Global,
    fields: &mut Vec<Field>,
    name: &str,
    path: &str,
    digest: &Digest,
) -> Result<(), AllocError>
    ensures { OnOk result (fields.new.items ≡ fields.old.items
        ++ (location_field (codes "/v2/" ++ name.now ++ path.now ++ digest_text digest.now) ∷ (digest_field digest.now ∷ []))) }
{
    let text = digest.text(alloc)?;
    let place = place(alloc, name, path, text.as_str())?;
    add_field(alloc, fields, FieldName::Location, place.as_str())?;
    add_field(alloc, fields, FieldName::ContentDigest, text.as_str())
}

/// Adds the fields of an upload that has so many bytes: its place, how far it has come, its id.
#[tactic(auto, unfolding(crate::specs::Fields::upload_fields, crate::specs::Fields::upload_place, crate::specs::Fields::range_text))]
pub fn add_upload(
    alloc: Global,
    fields: &mut Vec<Field>,
    name: &str,
    id: &UploadId,
    size: u64,
) -> Result<(), AllocError>
    ensures { OnOk result (fields.new.items ≡ fields.old.items ++ upload_fields name.now id.now size) }
{
    let text = id.text(alloc)?;
    let place = place(alloc, name, "/blobs/uploads/", text.as_str())?;
    add_field(alloc, fields, FieldName::Location, place.as_str())?;
    let range = prefixed(alloc, "0-", size.saturating_sub(1).to_string(alloc)?)?;
    add_field(alloc, fields, FieldName::Range, range.as_str())?;
    add_field(alloc, fields, FieldName::UploadId, text.as_str())
}

/// Adds the field that names the page of at most n tags after the last one of this page, where there is one.
pub fn add_link(
    alloc: Global,
    fields: &mut Vec<Field>,
    name: &str,
    n: u64,
    next: &Option<Tag>,
) -> Result<(), AllocError>
    ensures { OnOk result (fields.new.items ≡ fields.old.items ++ link_fields name.now n next.now) }
{
    match next {
        Some(tag) => {
            let most = n.to_string(alloc)?;
            let link = [
                "</v2/",
                name,
                "/tags/list?n=",
                most.as_str(),
                "&last=",
                tag.as_str(),
                ">; rel=\"next\"",
            ]
            .concat(alloc)?;
            add_field(alloc, fields, FieldName::Link, link.as_str())
        }
        None => Ok(()),
    }
}

/// Adds the field that says that a filter was applied, where it was.
#[tactic(auto, unfolding(crate::specs::Fields::filter_fields))]
pub fn add_filter(alloc: Global, fields: &mut Vec<Field>, filtered: bool) -> Result<(), AllocError>
    ensures { OnOk result (fields.new.items ≡ fields.old.items ++ filter_fields filtered) }
{
    if filtered {
        add_field(alloc, fields, FieldName::FiltersApplied, "artifactType")
    } else {
        Ok(())
    }
}

/// The methods of a path.
#[tactic(auto, unfolding(crate::specs::Fields::methods_text))]
pub fn methods_text(which: Methods) -> &'static str
    ensures { result.now ≡ methods_text which }
{
    match which {
        Methods::Read => "GET, HEAD",
        Methods::List => "GET",
        Methods::Manifest => "GET, HEAD, PUT, DELETE",
        Methods::Begin => "POST",
        Methods::Upload => "GET, PATCH, PUT",
        Methods::Blob => "GET, HEAD, DELETE",
    }
}

/// Adds the field that names the size of the body of a reply with this status, where it has one.
#[tactic(auto, unfolding(crate::specs::Fields::length_fields))]
pub fn add_size(
    alloc: Global,
    fields: &mut Vec<Field>,
    status: u16,
    size: u64,
) -> Result<(), AllocError>
    ensures { OnOk result (fields.new.items ≡ fields.old.items ++ length_fields status size) }
{
    if status == 204 {
        Ok(())
    } else {
        add_length(alloc, fields, size)
    }
}

/// Adds the field that closes the connection, where it closes.
#[tactic(auto, unfolding(crate::specs::Fields::closing_fields))]
pub fn add_closing(alloc: Global, fields: &mut Vec<Field>, close: bool) -> Result<(), AllocError>
    ensures { OnOk result (fields.new.items ≡ fields.old.items ++ closing_fields close) }
{
    if close {
        add_field(alloc, fields, FieldName::Connection, "close")
    } else {
        Ok(())
    }
}
