//! Owned lists of bytes and texts, ids of uploads, and the orders of values.
use std::cmp::Ordering;
use zot_cases::{Answer, number, word};
use zot_digest::{Bytes, Words, digest_of};
use zot_names::{RepoName, Tag, UploadId};

/// What a list of bytes and its copy give back.
pub fn bytes(answer: &mut Answer, given: &str) {
    let bytes = Bytes::new(answer.read(given));
    let Ok(copy) = bytes.copy(answer.alloc()) else {
        return answer.fail("out of memory");
    };
    answer.confirm(copy == bytes && copy <= bytes, "the copy is another list");
    let vec = bytes.into_vec();
    answer.confirm(vec.as_slice() == copy.as_slice(), "another vector");
    answer.write(vec.as_slice());
}

/// What a text and its copy give back.
pub fn words(answer: &mut Answer, given: &str) {
    let words = words_of(answer, given);
    let Ok(copy) = words.copy(answer.alloc()) else {
        return answer.fail("out of memory");
    };
    answer.confirm(copy == words && copy <= words, "the copy is another text");
    answer.say(copy.as_str());
    answer.confirm(words.into_string().as_str() == given, "another text");
}

/// The number of the id whose text this is.
pub fn id(answer: &mut Answer, given: &str) {
    answer.show(&UploadId::read(given));
}

/// The text of the id of this number.
pub fn id_text(answer: &mut Answer, given: &str) {
    let id = UploadId::new(number(given));
    answer.confirm(id.number() == number(given), "another number");
    answer.give(id.text(answer.alloc()));
}

/// `TYPE ONE OTHER`: how the values of two words compare.
pub fn order(answer: &mut Answer, given: &str) {
    let alloc = answer.alloc();
    let (one, other) = (word(given, 1), word(given, 2));
    let order = match word(given, 0) {
        "digest" => digest_of(one.as_bytes()).cmp(&digest_of(other.as_bytes())),
        "bytes" => Bytes::new(answer.read(one)).cmp(&Bytes::new(answer.read(other))),
        "words" => words_of(answer, one).cmp(&words_of(answer, other)),
        "name" => RepoName::read(alloc, one)
            .ok()
            .cmp(&RepoName::read(alloc, other).ok()),
        "tag" => Tag::read(alloc, one)
            .ok()
            .cmp(&Tag::read(alloc, other).ok()),
        _ => UploadId::new(number(one)).cmp(&UploadId::new(number(other))),
    };
    answer.show(&order);
}

// An owned text.
fn words_of(answer: &Answer, given: &str) -> Words {
    let alloc = answer.alloc();
    Words::new(String::from_str(alloc, given).unwrap_or(String::new(alloc)))
}
