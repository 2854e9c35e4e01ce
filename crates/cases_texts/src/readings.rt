//! What manifests say.
use zot_cases::{Answer, cut};
use zot_digest::Digest;
use zot_media::{Annotation, Descriptor, Media, Reading, read_manifest, read_stored};

/// What a document says as a manifest of the media named first: each digest as its first digits, each text between bars,
/// and `-` where there is nothing.
pub fn manifest(answer: &mut Answer, given: &str) {
    let Some(reading) = reading_of(answer, given) else {
        return answer.say("none");
    };
    answer.say("references ");
    digests(answer, reading.references.as_slice());
    answer.say(" needed ");
    needed(answer, &reading);
    answer.say(" children ");
    digests(answer, reading.children.as_slice());
    answer.say(" subject ");
    subject(answer, &reading);
    answer.say(" artifact ");
    text(
        answer,
        reading.artifact.as_ref().map(|words| words.as_str()),
    );
    answer.say(" type ");
    text(answer, reading.artifact_type());
    answer.say(" annotations ");
    annotations(answer, reading.annotations.as_slice());
}

/// What its descriptors say: the digest, the size, the media, and whether the content may be fetched elsewhere.
pub fn descriptors(answer: &mut Answer, given: &str) {
    let Some(reading) = reading_of(answer, given) else {
        return answer.say("none");
    };
    let mut count = 0;
    for descriptor in reading.references.as_slice() {
        next(answer, &mut count, ", ");
        says(answer, descriptor);
    }
    for descriptor in reading.children.as_slice() {
        next(answer, &mut count, ", ");
        says(answer, descriptor);
    }
    if let Some(subject) = &reading.subject {
        next(answer, &mut count, ", ");
        says(answer, subject);
    }
    or_nothing(answer, count);
}

// A copy of the reading of a document as a manifest of the media named first. A stored manifest says the same, or nothing.
fn reading_of(answer: &mut Answer, given: &str) -> Option<Reading> {
    let alloc = answer.alloc();
    let (name, document) = cut(given, " ");
    let media = media_named(name)?;
    let bytes = answer.bytes_of(document);
    let stored = read_stored(alloc, media, bytes.as_slice()).ok()?;
    let Ok(reading) = read_manifest(alloc, media, bytes.as_slice()) else {
        answer.confirm(counts(&stored) == (0, 0, 0), "a stored reading; ");
        return None;
    };
    answer.confirm(
        counts(&stored) == counts(&reading),
        "another stored reading; ",
    );
    reading.copy(alloc).ok()
}

// How many references, children and annotations a reading has.
fn counts(reading: &Reading) -> (usize, usize, usize) {
    (
        reading.references.as_slice().len(),
        reading.children.as_slice().len(),
        reading.annotations.as_slice().len(),
    )
}

// The media of a name.
fn media_named(name: &str) -> Option<Media> {
    match name {
        "Image" => Some(Media::Image),
        "Index" => Some(Media::Index),
        "DockerImage" => Some(Media::DockerImage),
        "DockerList" => Some(Media::DockerList),
        _ => None,
    }
}

// Goes on to one more: after the first it says what stands between.
fn next(answer: &mut Answer, count: &mut u32, between: &str) {
    if *count > 0 {
        answer.say(between);
    }
    *count = count.saturating_add(1);
}

// Says `-` where there was none.
fn or_nothing(answer: &mut Answer, count: u32) {
    if count == 0 {
        answer.say("-");
    }
}

// The first digits of a digest.
fn digits(answer: &mut Answer, digest: &Digest) {
    let text = digest.text(answer.alloc());
    let text = answer.keep(text, String::new(answer.alloc()));
    answer.say(text.as_str().get(7..15).unwrap_or("?"));
}

// The digests of descriptors.
fn digests(answer: &mut Answer, descriptors: &[Descriptor]) {
    let mut count = 0;
    for descriptor in descriptors {
        next(answer, &mut count, ",");
        digits(answer, &descriptor.digest);
    }
    or_nothing(answer, count);
}

// The digests that have to be there.
fn needed(answer: &mut Answer, reading: &Reading) {
    let alloc = answer.alloc();
    let digests = answer.keep(reading.needed(alloc), Vec::new(alloc));
    let mut count = 0;
    for digest in digests.as_slice() {
        next(answer, &mut count, ",");
        digits(answer, digest);
    }
    or_nothing(answer, count);
}

// The digest of the subject.
fn subject(answer: &mut Answer, reading: &Reading) {
    match reading.subject_digest() {
        Some(digest) => digits(answer, &digest),
        None => answer.say("-"),
    }
}

// A text, between bars.
fn text(answer: &mut Answer, text: Option<&str>) {
    match text {
        Some(text) => {
            answer.say("|");
            answer.write(text.as_bytes());
            answer.say("|");
        }
        None => answer.say("-"),
    }
}

// Keys and texts of annotations.
fn annotations(answer: &mut Answer, annotations: &[Annotation]) {
    let mut count = 0;
    for annotation in annotations {
        next(answer, &mut count, ",");
        answer.write(annotation.key.as_str().as_bytes());
        answer.say("=");
        answer.write(annotation.text.as_str().as_bytes());
    }
    or_nothing(answer, count);
}

// What a descriptor says.
fn says(answer: &mut Answer, descriptor: &Descriptor) {
    digits(answer, &descriptor.digest);
    answer.say(" ");
    answer.tell(&descriptor.size);
    answer.say(" ");
    text(answer, Some(descriptor.media.as_str()));
    answer.say(if descriptor.external {
        " external"
    } else {
        " here"
    });
}
