//! What the program does for words whose command may wait.
ghost use Rattle.std.specs.Prelude.{◌≡◌, ◌↔◌, ℕ, List, MatchOption, map, string_bytes, true};
ghost use Rattle.zot_commands.specs.Memory.{RunsPipe};
ghost use Rattle.zot_commands.specs.PipeEndings.{pipe_status as pipe_status_of};
ghost use Rattle.zot_commands.specs.Program.{ArePipeAt, IsStatusOf, Notes, RefusesWords, pipe_words};
ghost use Rattle.zot_commands.specs.Storage.{RunsPipeAt, seen};
ghost use Rattle.zot_session.specs.Causes.{Causes, Counts};

use crate::memory::pipe_in_memory;
use crate::notes::{note_end, note_pipe, note_words};
use crate::pipe_ending::pipe_status;
use crate::status::{Status, exit_status};
use crate::storage::pipe_at;
use std::alloc::Global;
use zot_head::length_of;
use zot_host::Host;
use zot_outside::{Sink, Source, Store};

/// Runs the command of these words, if it may wait. `pipe` serves one connection from the input to the output, at the moments of the host's clock: over rows in memory without a repository, or, with the path of a configuration and a member's number in 1 to 18 digits, over its storage at that member. Other words are refused with the status 2: for them the host isn't asked, nothing is read, and nothing is written to the output.
pub fn run_waiting<H: Host, C: Source, K: Sink, N: Sink>(
    alloc: Global,
    words: &[String],
    host: &mut H,
    input: &mut C,
    output: &mut K,
    notes: &mut N,
) -> Status
    ensures pipe { RunsPipe (map string_bytes words.now) (H.moment host.old) result.code (C.left input.old) (C.left input.new) (K.held output.old) (K.held output.new)
        (λ line. Notes line (N.held notes.old) (N.held notes.new) (N.faults notes.old) (N.faults notes.new)) }
    ensures pipe_at { RunsPipeAt ⟦<H::S as Store>⟧ (map string_bytes words.now) (H.files host.old) (H.moment host.old) result.code (seen (H.parts host.old) (H.kept host.old) (C.left input.old) (K.held output.old))
        (seen (H.parts host.new) (H.kept host.new) (C.left input.new) (K.held output.new)) ((input.new ≡ input.old) × (output.new ≡ output.old))
        (λ line. Notes line (N.held notes.old) (N.held notes.new) (N.faults notes.old) (N.faults notes.new)) }
    ensures words { RefusesWords (map string_bytes words.now) result.code ((host.new ≡ host.old) × (input.new ≡ input.old) × (output.new ≡ output.old))
        (λ line. Notes line (N.held notes.old) (N.held notes.new) (N.faults notes.old) (N.faults notes.new)) }
    ensures status { IsStatusOf pipe_status_of result.code }
    ensures causes { Causes (result.code ≡ 5) (result.code ≡ 6) (C.faults input.old) (C.faults input.new) (K.faults output.old) (K.faults output.new) }
    ensures host { Counts (result.code ≡ 12) (H.faults host.old) (H.faults host.new) }
    ensures files { H.files host.new ≡ H.files host.old }
{
    if is_pipe(words) {
        let end = pipe_in_memory(alloc, host, input, output);
        note_end(notes, end);
        return Status {
            code: exit_status(end),
        };
    }
    match pipe_place(words) {
        Some(place) => {
            let ending = pipe_at(alloc, place.0, place.1, host, input, output);
            note_pipe(notes, place.0, &ending);
            Status {
                code: pipe_status(&ending),
            }
        }
        None => {
            note_words(notes);
            Status { code: 2 }
        }
    }
}

// Whether these are the words of `pipe` alone.
#[tactic(auto, unfolding(crate::specs::Program::pipe_words))]
fn is_pipe(words: &[String]) -> bool
    ensures { result ≡ true ↔ map string_bytes words.now ≡ pipe_words }
{
    match words {
        [word] => word.as_str() == "pipe",
        _ => false,
    }
}

// The path of a configuration and a member's number, where these are the words of `pipe` for them.
fn pipe_place(words: &[String]) -> Option<(&str, u64)>
    ensures { MatchOption result ((path : List ℕ) (member : ℕ) → ¬ ArePipeAt (map string_bytes words.now) path member) (λ place. ArePipeAt (map string_bytes words.now) place.0.now place.1) }
{
    match words {
        [command, path, digits] => {
            if command.as_str() == "pipe" {
                match length_of(digits.as_str().as_bytes()) {
                    Some(member) => Some((path.as_str(), member)),
                    None => None,
                }
            } else {
                None
            }
        }
        _ => None,
    }
}
