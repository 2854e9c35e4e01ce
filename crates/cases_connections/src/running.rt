//! Runs of the program's commands over an input in memory.
use std::alloc::{AllocError, Global};
use std::io::{self, ErrorKind};
use zot_cases::{Answer, cut, number};
use zot_commands::{run_given, run_waiting};
use zot_fakes::{MemorySink, MemorySource, MemoryStore};
use zot_host::MemoryHost;
use zot_outside::OpenGate;
use zot_pool::MemoryUpstream;

/// The numbers of the calls that fail: of the reads, of the writes to the output, and of those to the notes; 0 for none.
#[derive(Clone, Copy)]
pub struct Failing {
    pub read: u64,
    pub write: u64,
    pub note: u64,
}

/// No call fails.
pub const STEADY: Failing = Failing {
    read: 0,
    write: 0,
    note: 0,
};

/// What these words do, as cases write it: `STATUS [NOTE]OUTPUT`. The input comes, and the output goes, in pieces of at
/// most so many bytes.
pub fn run_words(
    alloc: Global,
    words: &[String],
    input: &[u8],
    piece: usize,
    failing: Failing,
) -> Answer {
    let piece = piece.max(1);
    let mut source = MemorySource::new(
        list_of(alloc, input),
        piece,
        list_of(alloc, &[failing.read]),
    );
    let mut sink = MemorySink::in_pieces(alloc, piece, list_of(alloc, &[failing.write]));
    let mut notes = MemorySink::in_pieces(alloc, 4, list_of(alloc, &[failing.note]));
    let Ok(mut host) = host_of(alloc) else {
        return Answer::new(alloc);
    };
    let status = run_waiting(alloc, words, &mut host, &mut source, &mut sink, &mut notes);
    text_of(alloc, status.code, &notes, &sink)
}

/// What `pipe` does.
pub fn run_pipe(alloc: Global, input: &[u8], piece: usize, failing: Failing) -> Answer {
    let words = words_of(alloc, "pipe,");
    run_words(alloc, words.as_slice(), input, piece, failing)
}

// A host in memory without files, parts and upstreams.
fn host_of(alloc: Global) -> Result<MemoryHost<MemoryStore, MemoryUpstream, OpenGate>, AllocError> {
    MemoryHost::new(
        alloc,
        Vec::new(alloc),
        Vec::new(alloc),
        Vec::new(alloc),
        7,
        OpenGate,
    )
}

// The text of a run.
fn text_of(alloc: Global, code: u8, notes: &MemorySink, sink: &MemorySink) -> Answer {
    let mut text = Answer::new(alloc);
    text.show(&code);
    text.say(" [");
    text.write(notes.written());
    text.say("]");
    text.write(sink.written());
    text
}

// A list of these items, or an empty one where memory runs out.
fn list_of<T: Copy + Drop>(alloc: Global, items: &[T]) -> Vec<T> {
    Vec::from_slice(alloc, items).unwrap_or(Vec::new(alloc))
}

// The words of a text, each with a comma after it.
fn words_of(alloc: Global, text: &str) -> Vec<String> {
    let mut words = Vec::new(alloc);
    for word in text.split_terminator(',') {
        if let Ok(word) = String::from_str(alloc, word) {
            let _ = words.push(word);
        }
    }
    words
}

/// `SIZES INPUT`: what `pipe` does with the input in pieces of each of these sizes, which is one thing.
pub fn pipe(answer: &mut Answer, given: &str) {
    let (sizes, input) = cut(given, " ");
    let input = answer.read(input);
    let whole = run_pipe(answer.alloc(), input.as_slice(), input.len(), STEADY);
    for size in sizes.split(',') {
        let ran = run_pipe(
            answer.alloc(),
            input.as_slice(),
            number(size) as usize,
            STEADY,
        );
        answer.confirm(ran.as_str() == whole.as_str(), ran.as_str());
    }
    answer.say(whole.as_str());
}

/// `WORD,WORD,..`: what the program does for these words, each with a comma after it, over an input that asks for the
/// base route.
pub fn words(answer: &mut Answer, given: &str) {
    let words = words_of(answer.alloc(), given);
    let input = b"GET /v2/ HTTP/1.1\r\n\r\n";
    let ran = run_words(answer.alloc(), words.as_slice(), input, 64, STEADY);
    answer.say(ran.as_str());
}

/// `memory`, `text` or words as above: what the program does where memory ran out while its arguments were read, where one
/// of them is no text, or where they are its name and more words. The input ends in a head, and the host has no files.
pub fn arguments(answer: &mut Answer, given: &str) {
    let alloc = answer.alloc();
    let arguments = match given {
        "memory" => Err(io::Error::from(ErrorKind::OutOfMemory)),
        "text" => Err(io::Error::from(ErrorKind::InvalidData)),
        _ => Ok(words_of(alloc, given)),
    };
    let mut source = MemorySource::new(list_of(alloc, b"GET"), 4, Vec::new(alloc));
    let mut sink = MemorySink::new(alloc, Vec::new(alloc));
    let mut notes = MemorySink::new(alloc, Vec::new(alloc));
    let Ok(mut host) = host_of(alloc) else {
        return answer.fail("out of memory");
    };
    let status = run_given(
        alloc,
        arguments,
        &mut host,
        &mut source,
        &mut sink,
        &mut notes,
    );
    answer.say(text_of(alloc, status.code, &notes, &sink).as_str());
}
