//! Globs over names.
ghost use Rattle.std.specs.Prelude.{◌≡◌, ◌≢◌, ◌↔◌, ℕ, List, ◌∷◌, IsTrue, MatchOption};
ghost use Rattle.zot_names.specs.Glob.{Matches};
ghost use Rattle.zot_names.specs.Tries.{BeginsWithNone, BeginsWithOther, Passes, Reaches};

use crate::passed::Passed;
use crate::piece::{Piece, first_piece};
use crate::reached::Reached;

/// Whether a glob matches a name: `**` stands for any run of bytes, a `*` that isn't part of such a pair for any run without `/`, every other byte for itself. Takes no memory.
pub fn glob_matches(glob: &str, name: &str) -> bool
    ensures { IsTrue result ↔ Matches glob.now name.now }
{
    let mut pieces = glob.as_bytes();
    let mut rest = name.as_bytes();
    let mut starred = false;
    loop {
        match pass_within(pieces, rest) {
            Passed::Whole => return true,
            Passed::Across(after, left) => {
                pieces = after;
                rest = left;
                starred = true;
            }
            Passed::Failed if !starred => return false,
            Passed::Failed => match rest.split_first() {
                Some((_, left)) => rest = left,
                None => return false,
            },
        }
    }
}

// How far the pieces before the next `**` lead. A `*` stands for as few bytes as it can.
fn pass_within<'a>(glob: &'a [u8], text: &'a [u8]) -> Passed<'a>
    ensures { Passes glob.now text.now result }
{
    let mut pieces = glob;
    let mut rest = text;
    let mut starred = false;
    loop {
        match skip_bytes(pieces, rest) {
            Reached::Whole => return Passed::Whole,
            Reached::Within(after, left) => {
                pieces = after;
                rest = left;
                starred = true;
            }
            Reached::Across(after, left) => return Passed::Across(after, left),
            Reached::Failed if !starred => return Passed::Failed,
            Reached::Failed => {
                let Some(left) = after_other(rest) else {
                    return Passed::Failed;
                };
                rest = left;
            }
        }
    }
}

// How far the bytes at the glob's front lead.
fn skip_bytes<'a>(glob: &'a [u8], text: &'a [u8]) -> Reached<'a>
    ensures { Reaches glob.now text.now result }
{
    let mut pieces = glob;
    let mut rest = text;
    while let Some((piece, after)) = first_piece(pieces) {
        match piece {
            Piece::Within => return Reached::Within(after, rest),
            Piece::Across => return Reached::Across(after, rest),
            Piece::Byte(byte) => {
                let Some(left) = after_byte(byte, rest) else {
                    return Reached::Failed;
                };
                pieces = after;
                rest = left;
            }
        }
    }
    if rest.is_empty() {
        Reached::Whole
    } else {
        Reached::Failed
    }
}

// What stands after this byte, where the text begins with it.
fn after_byte(byte: u8, text: &[u8]) -> Option<&[u8]>
    ensures { MatchOption result ((left : List ℕ) → text.now ≢ byte ∷ left) (λ left. text.now ≡ byte ∷ left.now) }
{
    match text {
        [first, left @ ..] if *first == byte => Some(left),
        _ => None,
    }
}

// What stands after the text's first byte, where that isn't a slash.
fn after_other(text: &[u8]) -> Option<&[u8]>
    ensures { MatchOption result (BeginsWithNone text.now) (λ left. BeginsWithOther text.now left.now) }
{
    match text {
        [first, left @ ..] if *first != b'/' => Some(left),
        _ => None,
    }
}
