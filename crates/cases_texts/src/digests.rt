//! Digests and their texts.
use zot_cases::Answer;
use zot_digest::{Digest, Hasher, digest_of, parse_digest, read_digest};

/// The text of the digest of these bytes, which is the same where they come one by one.
pub fn digest(answer: &mut Answer, given: &str) {
    let bytes = answer.read(given);
    let mut hasher = Hasher::new();
    for byte in bytes.as_slice() {
        hasher.update(&[*byte]);
    }
    let digest = digest_of(bytes.as_slice());
    answer.confirm(hasher.finish() == digest, "another digest byte by byte");
    answer.give(digest.text(answer.alloc()));
}

/// The digest that this text names, as text and as bytes.
pub fn text(answer: &mut Answer, given: &str) {
    let digest = parse_digest(given);
    answer.confirm(read_digest(given.as_bytes()) == digest, "read otherwise");
    match digest {
        Ok(digest) => answer.give(digest.text(answer.alloc())),
        Err(error) => answer.tell(&error),
    }
}

/// The first byte and the number of the first 8 bytes of the digest that this text names; a text that names none stands
/// for the digest of zeros.
pub fn parts(answer: &mut Answer, given: &str) {
    let digest = parse_digest(given).unwrap_or(Digest::from_bytes([0; 32]));
    answer.confirm(digest.as_bytes().len() == 32, "not 32 bytes");
    answer.show(&(digest.first(), digest.number()));
}
