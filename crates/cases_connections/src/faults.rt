//! Connections that are cut off at each place, or whose reads, writes and notes fail at each call.
use crate::running::{Failing, STEADY, run_pipe, run_words};
use zot_cases::{Answer, cut, number};

/// `INPUT`: the places at which an input that ends there closes the connection. An input that ends elsewhere tears it, with
/// as many bytes of the message as came after the place before.
pub fn cut_off(answer: &mut Answer, given: &str) {
    let input = answer.read(given);
    let mut closed = 0usize;
    for n in 0..input.len() {
        let ran = run_pipe(answer.alloc(), &input[..n], 4_096, STEADY);
        if ran.as_str().starts_with("0 []") {
            answer.begin();
            answer.show(&n);
            closed = n;
        } else {
            let mut torn = Answer::new(answer.alloc());
            torn.say("4 [zotd: torn ");
            torn.show(&n.saturating_sub(closed));
            torn.say("\\n]");
            answer.confirm(ran.as_str().starts_with(torn.as_str()), ran.as_str());
        }
    }
    answer.say(" of ");
    answer.show(&input.len());
}

/// `PIECE INPUT`: up to which read, or write, a failing one ends the connection with its status and note. Each earlier one
/// does too, and what was written is then the beginning of the whole output.
pub fn failing(answer: &mut Answer, given: &str, writes: bool) {
    let (piece, input) = cut(given, " ");
    let piece = number(piece) as usize;
    let input = answer.read(input);
    let steady = run_pipe(answer.alloc(), input.as_slice(), piece, STEADY);
    let output = steady.as_str().strip_prefix("0 []").unwrap_or("");
    let mut last = 0u64;
    for call in 1..200u64 {
        let (failing, note) = if writes {
            (
                Failing {
                    write: call,
                    ..STEADY
                },
                "6 [zotd: write fault\\n]",
            )
        } else {
            (
                Failing {
                    read: call,
                    ..STEADY
                },
                "5 [zotd: read fault\\n]",
            )
        };
        let ran = run_pipe(answer.alloc(), input.as_slice(), piece, failing);
        if let Some(written) = ran.as_str().strip_prefix(note) {
            answer.confirm(output.starts_with(written), "no beginning of the output");
            answer.confirm(
                last.saturating_add(1) == call,
                "an earlier call doesn't fail",
            );
            last = call;
        } else {
            answer.confirm(ran.as_str() == steady.as_str(), ran.as_str());
        }
    }
    answer.show(&last);
}

/// `CALL`: what is noted of words that fit no command where this write of the note fails, and the status.
pub fn failing_notes(answer: &mut Answer, given: &str) {
    let failing = Failing {
        note: number(given),
        ..STEADY
    };
    let ran = run_words(answer.alloc(), &[], b"", 4, failing);
    answer.say(ran.as_str());
}
