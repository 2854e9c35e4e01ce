//! What scrubs find in a repository.
use crate::manifests::manifests;
use std::thread::Threads;
use zot_cases::{Answer, cut};
use zot_digest::{Bytes, Digest, digest_of};
use zot_scrub::{Finding, scrub_repo};

/// What a scrub finds: `BLOB .. | MANIFEST ..`, where a blob is its name, which is its bytes, and `!` behind it where it has other
/// bytes. The answer is `damaged NAME, missing MANIFEST NAME ..`, or `nothing`.
pub fn scrubbed(rt: &(impl Threads + Sync), answer: &mut Answer, given: &str) {
    let (words, listed) = cut(given, "|");
    let alloc = answer.alloc();
    let mut contents = Vec::new(alloc);
    for word in words.split_whitespace() {
        let blob = blob(answer, word);
        answer.keep(contents.push(blob), ());
    }
    let sorted = contents.sort_by_key(|blob: &(Digest, Bytes)| blob.0);
    answer.keep(sorted, ());
    let rows = manifests(answer, listed);
    let found = scrub_repo(rt, alloc, contents.as_slice(), rows.as_slice());
    let found = answer.keep(found, Vec::new(alloc));
    if found.is_empty() {
        answer.say("nothing");
    }
    let mut between = "";
    for finding in found.as_slice() {
        answer.say(between);
        between = ", ";
        say_finding(answer, finding, given);
    }
}

// A blob.
fn blob(answer: &mut Answer, word: &str) -> (Digest, Bytes) {
    let alloc = answer.alloc();
    let (name, _) = cut(word, "!");
    let bytes = answer.keep(Vec::from_slice(alloc, word.as_bytes()), Vec::new(alloc));
    (digest_of(name.as_bytes()), Bytes::new(bytes))
}

// A finding.
fn say_finding(answer: &mut Answer, finding: &Finding, given: &str) {
    match finding {
        Finding::Damaged(digest) => {
            answer.say("damaged ");
            say_name(answer, digest, given);
        }
        Finding::Missing { manifest, digest } => {
            answer.say("missing ");
            say_name(answer, manifest, given);
            answer.say(" ");
            say_name(answer, digest, given);
        }
    }
}

// The name that has a digest: one of the letters of what is given.
fn say_name(answer: &mut Answer, digest: &Digest, given: &str) {
    for letter in given.split([' ', '|', '@', ',', '+', '-', '>', '^', '!']) {
        if digest_of(letter.as_bytes()) == *digest {
            return answer.say(letter);
        }
    }
    answer.fail("no name");
}
