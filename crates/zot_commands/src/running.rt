//! What the program does for its words.
ghost use Rattle.std.specs.Prelude.{◌≡◌, ◌↔◌, IfErr, IfOk, IsTrue, drop, false, true, map, string_bytes};
ghost use Rattle.std.specs.IoError.{error_kind};
ghost use Rattle.std.specs.declared.io.ErrorKind.TheVariants.{OutOfMemory};
ghost use Rattle.zot_session.specs.Causes.{Causes, Counts};
ghost use Rattle.zot_session.specs.Sending.{WritesPart};
ghost use Rattle.zot_session.specs.declared.end.End.TheVariants as ends;
ghost use Rattle.zot_outside.specs.Streams.{Appends};
ghost use Rattle.zot_commands.specs.Memory.{RunsPipe};
ghost use Rattle.zot_commands.specs.Program.{Notes, RefusesUnread, is_waiting as is_waiting_of, is_waiting_word as is_waiting_word_of, line_of, exit_status as exit_status_of, words_line, words_status};
ghost use Rattle.zot_commands.specs.Storage.{RunsPipeAt, seen};
ghost use Rattle.zot_commands.specs.Verify.{RefusesAll, RunsVerify};

use crate::notes::{note_end, note_words};
use crate::plain::run_plain;
use crate::status::Status;
use crate::waiting::run_waiting;
use std::alloc::Global;
use std::io;
use std::io::ErrorKind;
use zot_host::Host;
use zot_outside::{Sink, Source, Store};
use zot_session::End;

/// Runs the command of the program's arguments, of which the first is its name. Arguments that couldn't be read are refused: with the status 8 where memory ran out, else with the status 2, since no command has words that aren't text.
pub fn run_given<H: Host, C: Source, K: Sink, N: Sink>(
    alloc: Global,
    given: io::Result<Vec<String>>,
    host: &mut H,
    input: &mut C,
    output: &mut K,
    notes: &mut N,
) -> Status
    ensures pipe { IfOk given (λ args. RunsPipe (map string_bytes (drop 1 args.items)) (H.moment host.old) result.code (C.left input.old) (C.left input.new) (K.held output.old) (K.held output.new)
        (λ line. Notes line (N.held notes.old) (N.held notes.new) (N.faults notes.old) (N.faults notes.new))) }
    ensures pipe_at { IfOk given (λ args. RunsPipeAt ⟦<H::S as Store>⟧ (map string_bytes (drop 1 args.items)) (H.files host.old) (H.moment host.old) result.code (seen (H.parts host.old) (H.kept host.old) (C.left input.old) (K.held output.old))
        (seen (H.parts host.new) (H.kept host.new) (C.left input.new) (K.held output.new)) ((input.new ≡ input.old) × (output.new ≡ output.old))
        (λ line. Notes line (N.held notes.old) (N.held notes.new) (N.faults notes.old) (N.faults notes.new))) }
    ensures verify { IfOk given (λ args. RunsVerify (map string_bytes (drop 1 args.items)) (H.files host.old) result.code (λ line. Appends (K.held output.old) line (K.held output.new)) (λ line. WritesPart (K.held output.old) line (K.held output.new)) (output.new ≡ output.old)
        (λ line. Notes line (N.held notes.old) (N.held notes.new) (N.faults notes.old) (N.faults notes.new))) }
    ensures words { IfOk given (λ args. RefusesAll (map string_bytes (drop 1 args.items)) result.code ((host.new ≡ host.old) × (input.new ≡ input.old) × (output.new ≡ output.old))
        (λ line. Notes line (N.held notes.old) (N.held notes.new) (N.faults notes.old) (N.faults notes.new))) }
    ensures unread { IfErr given (λ error. RefusesUnread (error_kind error) result.code ((host.new ≡ host.old) × (input.new ≡ input.old) × (output.new ≡ output.old))
        (λ line. Notes line (N.held notes.old) (N.held notes.new) (N.faults notes.old) (N.faults notes.new))) }
    ensures causes { Causes (result.code ≡ 5) (result.code ≡ 6) (C.faults input.old) (C.faults input.new) (K.faults output.old) (K.faults output.new) }
    ensures host { Counts (result.code ≡ 12) (H.faults host.old) (H.faults host.new) }
{
    match given {
        Ok(args) => run_words(
            alloc,
            after_name(args.as_slice()),
            host,
            input,
            output,
            notes,
        ),
        Err(error) => run_unread(is_out_of_memory(&error), notes),
    }
}

// Runs the command of these words.
fn run_words<H: Host, C: Source, K: Sink, N: Sink>(
    alloc: Global,
    words: &[String],
    host: &mut H,
    input: &mut C,
    output: &mut K,
    notes: &mut N,
) -> Status
    ensures pipe { RunsPipe (map string_bytes words.now) (H.moment host.old) result.code (C.left input.old) (C.left input.new) (K.held output.old) (K.held output.new)
        (λ line. Notes line (N.held notes.old) (N.held notes.new) (N.faults notes.old) (N.faults notes.new)) }
    ensures pipe_at { RunsPipeAt ⟦<H::S as Store>⟧ (map string_bytes words.now) (H.files host.old) (H.moment host.old) result.code (seen (H.parts host.old) (H.kept host.old) (C.left input.old) (K.held output.old))
        (seen (H.parts host.new) (H.kept host.new) (C.left input.new) (K.held output.new)) ((input.new ≡ input.old) × (output.new ≡ output.old))
        (λ line. Notes line (N.held notes.old) (N.held notes.new) (N.faults notes.old) (N.faults notes.new)) }
    ensures verify { RunsVerify (map string_bytes words.now) (H.files host.old) result.code (λ line. Appends (K.held output.old) line (K.held output.new)) (λ line. WritesPart (K.held output.old) line (K.held output.new)) (output.new ≡ output.old)
        (λ line. Notes line (N.held notes.old) (N.held notes.new) (N.faults notes.old) (N.faults notes.new)) }
    ensures words { RefusesAll (map string_bytes words.now) result.code ((host.new ≡ host.old) × (input.new ≡ input.old) × (output.new ≡ output.old))
        (λ line. Notes line (N.held notes.old) (N.held notes.new) (N.faults notes.old) (N.faults notes.new)) }
    ensures causes { Causes (result.code ≡ 5) (result.code ≡ 6) (C.faults input.old) (C.faults input.new) (K.faults output.old) (K.faults output.new) }
    ensures host { Counts (result.code ≡ 12) (H.faults host.old) (H.faults host.new) }
{
    if is_waiting(words) {
        run_waiting(alloc, words, host, input, output, notes)
    } else {
        run_plain(alloc, words, host, output, notes)
    }
}

// Whether the first of these words is that of a command that may wait.
fn is_waiting(words: &[String]) -> bool
    ensures { result ≡ is_waiting_of (map string_bytes words.now) }
{
    match words {
        [word, ..] => is_waiting_word(word.as_str()),
        [] => false,
    }
}

// Whether a word is that of a command that may wait.
#[tactic(auto, unfolding(crate::specs::Program::is_waiting_word))]
fn is_waiting_word(word: &str) -> bool
    ensures { result ≡ is_waiting_word_of word.now }
{
    word == "pipe" || word == "serve" || word == "load"
}

// The program's words: its arguments after its name.
fn after_name(args: &[String]) -> &[String]
    ensures { result.now ≡ drop 1 args.now }
{
    match args {
        [_, words @ ..] => words,
        [] => args,
    }
}

// Whether an error says that memory ran out.
fn is_out_of_memory(error: &io::Error) -> bool
    ensures { IsTrue result ↔ (error_kind error.now ≡ OutOfMemory) }
{
    error.kind() == ErrorKind::OutOfMemory
}

// Refuses words that couldn't be read: memory ran out, or they aren't text.
fn run_unread<N: Sink>(no_memory: bool, notes: &mut N) -> Status
    ensures memory { no_memory ≡ true → (result.code ≡ exit_status_of ends.NoMemory)
        × Notes (line_of ends.NoMemory) (N.held notes.old) (N.held notes.new) (N.faults notes.old) (N.faults notes.new) }
    ensures text { no_memory ≡ false → (result.code ≡ words_status)
        × Notes words_line (N.held notes.old) (N.held notes.new) (N.faults notes.old) (N.faults notes.new) }
{
    if no_memory {
        note_end(notes, End::NoMemory);
        Status { code: 8 }
    } else {
        note_words(notes);
        Status { code: 2 }
    }
}
