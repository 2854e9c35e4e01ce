//! Indexes and markers of image layouts.
use zot_cases::Answer;
use zot_digest::{Bytes, Words};
use zot_layout::{IndexState, LayoutError, index_text, marker_text, read_index, read_marker};

/// The path of the objects in the cases.
const PATH: &str = "a/index.json";

/// The moment at which they are read.
const MOMENT: u64 = 7;

/// What an index says, or why it isn't read: of each manifest its digest, media, size and arrival, and of each tag its
/// text, digest and push.
pub fn index(answer: &mut Answer, given: &str) {
    let bytes = answer.read(given);
    match read_index(answer.alloc(), PATH, bytes.as_slice(), MOMENT) {
        Ok(state) => says(answer, &state),
        Err(error) => why(answer, &error, bytes.as_slice()),
    }
}

/// The index that is written of what an index says.
pub fn written(answer: &mut Answer, given: &str) {
    let bytes = answer.read(given);
    let alloc = answer.alloc();
    match read_index(alloc, PATH, bytes.as_slice(), MOMENT) {
        Ok(state) => {
            let text = answer.keep(index_text(alloc, &state), Vec::new(alloc));
            answer.write(text.as_slice());
        }
        Err(error) => why(answer, &error, bytes.as_slice()),
    }
}

/// Whether bytes are a marker. The marker that is written is one.
pub fn marker(answer: &mut Answer, given: &str) {
    let alloc = answer.alloc();
    let own = read_marker(alloc, PATH, marker_text().as_bytes());
    answer.confirm(own.is_ok(), "the own marker is none");
    let bytes = answer.read(given);
    match read_marker(alloc, PATH, bytes.as_slice()) {
        Ok(()) => answer.say("a marker"),
        Err(error) => why(answer, &error, bytes.as_slice()),
    }
}

/// What a state holds.
pub fn says(answer: &mut Answer, state: &IndexState) {
    for manifest in state.manifests.as_slice() {
        answer.begin();
        answer.give(manifest.digest.text(answer.alloc()));
        answer.say(" ");
        answer.show(&manifest.media);
        answer.say(" ");
        answer.tell(&manifest.size);
        answer.say(" ");
        answer.tell(&manifest.arrived);
    }
    for tag in state.tags.as_slice() {
        answer.begin();
        answer.say(tag.tag.as_str());
        answer.say(" ");
        answer.give(tag.digest.text(answer.alloc()));
        answer.say(" ");
        answer.tell(&tag.pushed);
    }
}

// Why these bytes weren't read.
fn why(answer: &mut Answer, error: &LayoutError, bytes: &[u8]) {
    match error {
        LayoutError::BadIndex { path, text } => carries(answer, "bad index", path, text, bytes),
        LayoutError::BadMeta { path, text } => carries(answer, "bad meta", path, text, bytes),
        LayoutError::Failed => answer.fail("failed"),
        LayoutError::NoMemory => answer.fail("out of memory"),
    }
}

// An error that has to carry the path and these bytes.
fn carries(answer: &mut Answer, name: &str, path: &Words, text: &Bytes, bytes: &[u8]) {
    answer.confirm(path.as_str() == PATH, "another path; ");
    answer.confirm(text.as_slice() == bytes, "other bytes; ");
    answer.say(name);
}
