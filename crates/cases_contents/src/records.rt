//! Cache records.
use zot_cases::{Answer, number};
use zot_links::{RecordLine, read_record, record_text};

/// The lines of a record, or that the bytes are none. The text of the lines has to be these bytes.
pub fn record(answer: &mut Answer, given: &str) {
    let bytes = answer.read(given);
    lines_of(answer, bytes.as_slice());
}

/// `NUMBER`: how many bytes the record of a name of so many bytes has, or that there is no such name.
pub fn long(answer: &mut Answer, given: &str) {
    let mut text = Vec::new(answer.alloc());
    let mut added = text.extend_from_slice(b"W ");
    answer.keep(added, ());
    for _ in 0..number(given) {
        let pushed = text.push(b'a');
        answer.keep(pushed, ());
    }
    added = text.extend_from_slice(b"\n");
    answer.keep(added, ());
    match read_record(answer.alloc(), text.as_slice()) {
        Ok(_) => answer.tell(&text.len()),
        Err(error) => answer.tell(&error),
    }
}

// Adds the lines of a record.
fn lines_of(answer: &mut Answer, bytes: &[u8]) {
    match read_record(answer.alloc(), bytes) {
        Ok(lines) => {
            for line in &lines {
                answer.begin();
                says(answer, line);
            }
            let text = record_text(answer.alloc(), lines.as_slice());
            let none = Vec::new(answer.alloc());
            let again = answer.keep(text, none);
            answer.confirm(again.as_slice() == bytes, "another text");
        }
        Err(error) => answer.tell(&error),
    }
}

// Adds what a line says.
fn says(answer: &mut Answer, line: &RecordLine) {
    answer.say(line.name.as_str());
    match &line.origin {
        Some(origin) => {
            answer.say(" to ");
            answer.say(origin.as_str());
        }
        None => answer.say(" whole"),
    }
}
