//! Runs of commands over hosts.
use crate::hosts::FaultyHost;
use std::alloc::{AllocError, Global};
use zot_cases::{Answer, cut, number};
use zot_commands::run_plain;
use zot_fakes::{MemorySink, MemoryStore};
use zot_host::{Host, MemoryHost, SystemHost};
use zot_outside::OpenGate;
use zot_pool::MemoryUpstream;

/// The numbers of the calls that fail: of the writes to the output, and of those to the notes; 0 for none.
#[derive(Clone, Copy)]
struct Failing {
    write: u64,
    note: u64,
}

/// No call fails.
const STEADY: Failing = Failing { write: 0, note: 0 };

// What these words do over a host, as cases write it: `STATUS [NOTE]OUTPUT`. The note goes in pieces of at most four bytes.
fn run_over<H: Host>(answer: &mut Answer, words: &[String], host: &mut H, failing: Failing) {
    let alloc = answer.alloc();
    let mut output = MemorySink::in_pieces(alloc, 4, listed(alloc, failing.write));
    let mut notes = MemorySink::in_pieces(alloc, 4, listed(alloc, failing.note));
    let status = run_plain(alloc, words, host, &mut output, &mut notes);
    answer.show(&status.code);
    answer.say(" [");
    answer.write(notes.written());
    answer.say("]");
    answer.write(output.written());
}

// A list of one number, or an empty one where memory runs out.
fn listed(alloc: Global, number: u64) -> Vec<u64> {
    Vec::from_slice(alloc, &[number]).unwrap_or(Vec::new(alloc))
}

// The words of a text, each with a comma after it.
fn words_of(alloc: Global, text: &str) -> Vec<String> {
    let mut words = Vec::new(alloc);
    for word in text.split_terminator(',') {
        if let Ok(word) = String::from_str(alloc, word) {
            let _ = words.push(word);
        }
    }
    words
}

// What `verify` does with a text, over a host in memory of which it is the file `zot.json`.
fn verify_text(answer: &mut Answer, text: &str, failing: Failing) {
    let alloc = answer.alloc();
    let mut files = Vec::new(alloc);
    let bytes = answer.bytes_of(text);
    add_file(alloc, &mut files, "zot.json", bytes);
    let words = words_of(alloc, "verify,zot.json,");
    match host_of(alloc, files) {
        Ok(mut host) => run_over(answer, words.as_slice(), &mut host, failing),
        Err(_) => answer.fail("out of memory"),
    }
}

// A host in memory with these files, without parts and upstreams.
fn host_of(
    alloc: Global,
    files: Vec<(String, Vec<u8>)>,
) -> Result<MemoryHost<MemoryStore, MemoryUpstream, OpenGate>, AllocError> {
    MemoryHost::new(alloc, files, Vec::new(alloc), Vec::new(alloc), 7, OpenGate)
}

// Adds a file to a list.
fn add_file(alloc: Global, files: &mut Vec<(String, Vec<u8>)>, path: &str, bytes: Vec<u8>) {
    if let Ok(path) = String::from_str(alloc, path) {
        let _ = files.push((path, bytes));
    }
}

/// `WORD,WORD,..`: what the program does for these words, each with a comma after it, over the system.
pub fn system(rt: HostRuntime, answer: &mut Answer, given: &str) {
    let words = words_of(answer.alloc(), given);
    let mut host = SystemHost::new(rt);
    run_over(answer, words.as_slice(), &mut host, STEADY);
}

/// `TEXT`: what `verify` does over a host in memory whose file has this text.
pub fn memory(answer: &mut Answer, given: &str) {
    verify_text(answer, given, STEADY);
}

/// `TEXT & TEXT`: what `verify` does over a host in memory that was given its file twice, and what it does for another path.
pub fn twice(answer: &mut Answer, given: &str) {
    let alloc = answer.alloc();
    let (first, second) = cut(given, " & ");
    let mut files = Vec::new(alloc);
    for text in [first, second] {
        let bytes = answer.bytes_of(text);
        add_file(alloc, &mut files, "zot.json", bytes);
    }
    match host_of(alloc, files) {
        Ok(mut host) => {
            for words in ["verify,zot.json,", "verify,json,"] {
                answer.begin();
                let words = words_of(alloc, words);
                run_over(answer, words.as_slice(), &mut host, STEADY);
            }
        }
        Err(_) => answer.fail("out of memory"),
    }
}

/// `CALL TEXT`: what `verify` does with this text where this write to the output fails.
pub fn failing_write(answer: &mut Answer, given: &str) {
    let (call, text) = cut(given, " ");
    let failing = Failing {
        write: number(call),
        ..STEADY
    };
    verify_text(answer, text, failing);
}

/// `CALL TEXT`: what `verify` does with this text where this write of the note fails.
pub fn failing_note(answer: &mut Answer, given: &str) {
    let (call, text) = cut(given, " ");
    let failing = Failing {
        note: number(call),
        ..STEADY
    };
    verify_text(answer, text, failing);
}

/// `WORD,WORD,..`: what the program does for these words over a host that fails.
pub fn failing_host(answer: &mut Answer, given: &str) {
    let words = words_of(answer.alloc(), given);
    run_over(answer, words.as_slice(), &mut FaultyHost::new(), STEADY);
}
