//! Paths of targets.
use zot_cases::Answer;
use zot_route::{Path, Target};

/// The form of a target's path, the segments of its name with a bar after each, and its text.
pub fn path(answer: &mut Answer, target: &str) {
    let segments = Target::read(target)
        .segments(answer.alloc())
        .unwrap_or(None);
    let Some(segments) = segments else {
        return answer.say("no text");
    };
    let Some(path) = Path::read(segments.as_slice()) else {
        return answer.say("none");
    };
    answer.show(&path.form());
    answer.say(";");
    for segment in path.name() {
        answer.say(segment.as_str());
        answer.say("|");
    }
    answer.say(";");
    answer.say(path.text());
}
