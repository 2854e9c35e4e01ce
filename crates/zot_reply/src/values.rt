//! The values that the fields of a reply name. Where a field doesn't name one, another is given: a reply that is made of it isn't confirmed.
ghost use Rattle.std.specs.Prelude.{◌≡◌, [], unwrap_or};
ghost use Rattle.zot_reply.specs.Reading.{FindsContent, FindsId, FindsLength, FindsMedia, FindsSize, FindsSubject, seen_of};
ghost use Rattle.zot_spell.specs.Heads.{name_text, value_in};

use crate::cutting::{digest_of, number_of, skip, text_of};
use zot_digest::{Digest, read_digest};
use zot_media::{Media, media_of};
use zot_names::UploadId;
use zot_spell::{FieldName, SplitReply, value_in};

/// The digest of the content.
pub fn content_digest(split: &SplitReply) -> Digest
    ensures { FindsContent (seen_of split.now) result }
{
    digest_of(value(FieldName::ContentDigest, split))
}

/// The digest of the subject, where one is named.
pub fn subject_digest(split: &SplitReply) -> Option<Digest>
    ensures { FindsSubject (seen_of split.now) result }
{
    match value_in(FieldName::Subject, split.fields.as_slice()) {
        Some(text) => read_digest(text).ok(),
        None => None,
    }
}

/// The media of the body.
pub fn content_media(split: &SplitReply) -> Media
    ensures { FindsMedia (seen_of split.now) result }
{
    let text = text_of(value(FieldName::ContentType, split));
    media_of(text).unwrap_or(Media::Image)
}

/// The size of the body in bytes.
pub fn content_length(split: &SplitReply) -> u64
    ensures { FindsLength (seen_of split.now) result }
{
    number_of(value(FieldName::ContentLength, split))
}

/// The id of an upload.
pub fn upload_id(split: &SplitReply) -> UploadId
    ensures { FindsId (seen_of split.now) result }
{
    let text = text_of(value(FieldName::UploadId, split));
    UploadId::read(text).unwrap_or(UploadId::new(0))
}

/// The size of an upload in bytes, which is 1 where its range is that of 0 bytes too.
pub fn upload_length(split: &SplitReply) -> u64
    ensures { FindsSize (seen_of split.now) result }
{
    let digits = skip(value(FieldName::Range, split), 2);
    number_of(digits).saturating_add(1)
}

// The value of the first field of this name.
fn value<'a>(name: FieldName, split: &'a SplitReply) -> &'a [u8]
    ensures { result.now ≡ unwrap_or (value_in (name_text name) split.now.fields.items) [] }
{
    match value_in(name, split.fields.as_slice()) {
        Some(text) => text,
        None => b"".as_slice(),
    }
}
