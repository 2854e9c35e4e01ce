//! Sources and sinks in memory.
use zot_cases::{Answer, cut, number, word};
use zot_fakes::{MemorySink, MemorySource, SteadySource};
use zot_outside::{Sink, Source};

/// `BYTES; LENGTH; ..`: what reads of these lengths find in a source that never fails.
pub fn steady(answer: &mut Answer, given: &str) {
    let (bytes, lengths) = cut(given, "; ");
    let bytes = answer.read(bytes);
    reads(answer, &mut SteadySource::new(bytes), lengths);
}

/// `PIECE NUMBERS BYTES; LENGTH; ..`: the same of a source that gives pieces and whose calls of these numbers fail.
pub fn source(answer: &mut Answer, given: &str) {
    let (made, lengths) = cut(given, "; ");
    let piece = (number(word(made, 0)) as usize).max(1);
    let failing = answer.numbers(word(made, 1));
    let bytes = answer.read(word(made, 2));
    reads(
        answer,
        &mut MemorySource::new(bytes, piece, failing),
        lengths,
    );
}

// What reads of these lengths, of at most 16 bytes, find in a source.
fn reads<S: Source>(answer: &mut Answer, source: &mut S, lengths: &str) {
    for length in lengths.split("; ") {
        let mut buf = [0; 16];
        let room = (number(length) as usize).min(16);
        let read = source.read(&mut buf[..room]);
        answer.begin();
        answer.show(&read);
        answer.write(buf.get(..read.unwrap_or(0)).unwrap_or(b""));
    }
}

/// `PIECE NUMBERS; BYTES; ..`: what a sink whose calls of these numbers fail answers to pieces that are written to it,
/// and what it holds then. It takes at most so many bytes, or where that is no number each piece whole.
pub fn sink(answer: &mut Answer, given: &str) {
    let (made, pieces) = cut(given, "; ");
    let piece = number(word(made, 0)) as usize;
    let failing = answer.numbers(word(made, 1));
    let mut sink = if piece > 0 {
        MemorySink::in_pieces(answer.alloc(), piece, failing)
    } else {
        MemorySink::new(answer.alloc(), failing)
    };
    for piece in pieces.split("; ") {
        answer.show(&sink.write(piece.as_bytes()));
        answer.say("; ");
    }
    answer.write(sink.written());
}
