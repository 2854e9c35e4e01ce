//! The media of manifests, and references to them.
use zot_cases::Answer;
use zot_digest::digest_of;
use zot_media::{Kind, Reference, media_in, media_of};
use zot_names::Tag;

/// The media that a text names; the text stands between bars.
pub fn media(answer: &mut Answer, given: &str) {
    let text = given.trim_matches('|');
    let media = media_of(text);
    if let Some(media) = media {
        answer.confirm(media.text() == text, "another text");
    }
    answer.show(&media);
}

/// The media that a document names.
pub fn document(answer: &mut Answer, given: &str) {
    let bytes = answer.read(given);
    answer.show(&media_in(answer.alloc(), bytes.as_slice()));
}

/// Whether the references by a tag and by the digest of its bytes are the same.
pub fn reference(answer: &mut Answer, given: &str) {
    let digest = Reference::Digest(digest_of(given.as_bytes()));
    if let Ok(tag) = Tag::read(answer.alloc(), given) {
        answer.show(&(Reference::Tag(tag) == digest));
    }
    answer.confirm(Kind::Manifest != Kind::Blob, "the kinds are one");
}
