//! The upload sessions of one repository.
use zot_cases::{Answer, number, word};
use zot_digest::digest_of;
use zot_model::Span;
use zot_names::UploadId;
use zot_uploads::Uploads;

/// What calls on uploads answer, with `; ` between two. `N* CALL` is made N times, and the last answer counts.
pub fn uploads(answer: &mut Answer, given: &str) {
    let mut uploads = Uploads::new(answer.alloc());
    for step in given.split("; ") {
        let (times, step) = step.split_once("* ").unwrap_or(("1", step));
        for _ in 1..number(times) {
            make(&mut Answer::new(answer.alloc()), &mut uploads, step);
        }
        answer.begin();
        make(answer, &mut uploads, step);
    }
}

// What one call answers: `CALL ID RANGE PIECE WHOLE`, where WHOLE has the digest that the whole is to have.
fn make(answer: &mut Answer, uploads: &mut Uploads, step: &str) {
    let alloc = answer.alloc();
    let first = number(word(step, 1));
    let id = UploadId::new(first);
    let range = range_of(word(step, 2));
    let piece = answer.read(word(step, 3));
    match word(step, 0) {
        "fresh" => answer.show(&uploads.is_fresh()),
        "begin" => answer.outcome(&uploads.begin(alloc, first)),
        "append" => answer.outcome(&uploads.append(id, range, piece.as_slice())),
        "length" => answer.show(&uploads.length(id)),
        "whole" => {
            let digest = digest_of(answer.read(word(step, 4)).as_slice());
            answer.outcome(&uploads.whole(alloc, id, range, piece.as_slice(), &digest));
        }
        "end" => {
            uploads.end(id);
            answer.say("ended");
        }
        "expire" => answer.show(&uploads.expire(first, number(word(step, 2)))),
        _ => answer.fail("no such call"),
    }
}

// The range of a word, as `0-2`; any other word stands for none.
fn range_of(word: &str) -> Option<Span> {
    let (start, end) = word.split_once('-')?;
    Some(Span {
        start: start.parse::<u64>().ok()?,
        end: end.parse::<u64>().ok()?,
    })
}
