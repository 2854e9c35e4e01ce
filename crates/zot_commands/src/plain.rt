//! What the program does for words whose command waits for nobody.
ghost use Rattle.std.specs.Prelude.{◌≡◌, ◌≢◌, ℕ, List, MatchOption, map, string_bytes};
ghost use Rattle.zot_commands.specs.Program.{IsStatusOf, Notes, words_line};
ghost use Rattle.zot_commands.specs.Verify.{RefusesOthers, RunsVerify, ending_status as ending_status_of, verify_words};
ghost use Rattle.zot_outside.specs.Streams.{Appends};
ghost use Rattle.zot_session.specs.Causes.{Causes};
ghost use Rattle.zot_session.specs.Sending.{WritesPart};

use crate::ending::ending_status;
use crate::notes::{note_ending, note_words};
use crate::status::Status;
use crate::verifying::verify;
use std::alloc::Global;
use zot_host::Host;
use zot_outside::Sink;

/// Runs the command of these words. `verify` reads the configuration in a file of the host and writes how many members it has. Other words are refused with the status 2: for them the host isn't asked, and nothing is written to the output.
pub fn run_plain<H: Host, K: Sink, N: Sink>(
    alloc: Global,
    words: &[String],
    host: &mut H,
    output: &mut K,
    notes: &mut N,
) -> Status
    ensures verify { RunsVerify (map string_bytes words.now) (H.files host.old) result.code (λ line. Appends (K.held output.old) line (K.held output.new)) (λ line. WritesPart (K.held output.old) line (K.held output.new)) (output.new ≡ output.old)
        (λ line. Notes line (N.held notes.old) (N.held notes.new) (N.faults notes.old) (N.faults notes.new)) }
    ensures words { RefusesOthers (map string_bytes words.now) result.code ((host.new ≡ host.old) × (output.new ≡ output.old))
        (λ line. Notes line (N.held notes.old) (N.held notes.new) (N.faults notes.old) (N.faults notes.new)) }
    ensures status { IsStatusOf ending_status_of result.code }
    ensures causes { Causes (result.code ≡ 12) (result.code ≡ 6) (H.faults host.old) (H.faults host.new) (K.faults output.old) (K.faults output.new) }
    ensures files { H.files host.new ≡ H.files host.old }
{
    match verify_path(words) {
        Some(path) => {
            let ending = verify(alloc, path, host, output);
            note_ending(notes, path, &ending);
            Status {
                code: ending_status(&ending),
            }
        }
        None => {
            note_words(notes);
            Status { code: 2 }
        }
    }
}

// The path of the configuration, where these are the words of `verify`.
#[tactic(auto, unfolding(crate::specs::Verify::verify_words))]
fn verify_path(words: &[String]) -> Option<&str>
    ensures { MatchOption result ((path : List ℕ) → map string_bytes words.now ≢ verify_words path) (λ path. map string_bytes words.now ≡ verify_words path.now) }
{
    match words {
        [command, path] => {
            if command.as_str() == "verify" {
                Some(path.as_str())
            } else {
                None
            }
        }
        _ => None,
    }
}
