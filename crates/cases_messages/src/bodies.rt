//! Bodies in chunks.
ghost use Rattle.std.specs.Prelude.{◌<◌};

use crate::heads::is_cut;
use std::alloc::AllocError;
use zot_cases::Answer;
use zot_head::{ChunkError, Chunks, Fed};

/// The most bytes of a body here.
const LIMIT: u64 = 10;

/// From how many bytes on it is known how a body ends, why it is refused, and its bytes, which are the same in pieces of
/// each size.
pub fn body(answer: &mut Answer, bytes: &[u8]) {
    let end = end_of(answer, bytes);
    let whole = body_of(answer, bytes, 1, end);
    for size in 2..bytes.len() + 1 {
        if is_cut(size, bytes.len()) {
            let body = body_of(answer, bytes, size, end);
            answer.confirm(body == whole, "another body");
        }
    }
    answer.show(&(end.at, end.refusal));
    answer.write(whole.as_slice());
}

// From how many bytes on it is known how a body ends, and why it is refused, if it is.
#[derive(Clone, Copy)]
struct End {
    at: usize,
    refusal: Option<ChunkError>,
}

// How a body ends whose bytes come one by one.
fn end_of(answer: &Answer, bytes: &[u8]) -> End {
    let mut chunks = Chunks::new(LIMIT);
    let mut body = Vec::new(answer.alloc());
    let mut at = 0usize;
    for byte in bytes {
        at = at.saturating_add(1);
        match chunks.feed(&[*byte], &mut body) {
            Ok(Fed { done: false, .. }) => {}
            fed => {
                return End {
                    at,
                    refusal: fed.err(),
                };
            }
        }
    }
    End {
        at: usize::MAX,
        refusal: None,
    }
}

// The body of bytes that come in pieces of a size, of which each is answered as the end says.
fn body_of(answer: &mut Answer, bytes: &[u8], size: usize, end: End) -> Vec<u8>
    requires { 0 < size }
{
    let mut chunks = Chunks::new(LIMIT);
    let mut body = Vec::new(answer.alloc());
    let mut from = 0usize;
    for piece in bytes.chunks(size) {
        let to = from.saturating_add(piece.len());
        let fed = chunks.feed(piece, &mut body);
        answer.confirm(fed == answered(end, from, to), "read otherwise");
        from = to;
    }
    body
}

// What is answered to the bytes from one place to another.
fn answered(end: End, from: usize, to: usize) -> Result<Fed, ChunkError> {
    match end.refusal {
        Some(error) if to >= end.at => Err(error),
        _ => Ok(Fed {
            taken: to.min(end.at).saturating_sub(from),
            done: to >= end.at,
        }),
    }
}

/// How many bytes of three pieces belong to a body of at most 3 bytes, and the body.
pub fn pieces(answer: &mut Answer) {
    let fed = feed_pieces(answer);
    answer.keep(fed, ());
}

// Adds what three pieces give.
fn feed_pieces(answer: &mut Answer) -> Result<(), AllocError> {
    let alloc = answer.alloc();
    let pieces = [
        Vec::from_slice(alloc, b"3\r")?,
        Vec::from_slice(alloc, b"\nab")?,
        Vec::from_slice(alloc, b"c\r\n0\r\n\r\nGET")?,
    ];
    let mut body = Vec::new(alloc);
    answer.show(&Chunks::new(3).feed_all(&pieces, &mut body));
    answer.write(body.as_slice());
    Ok(())
}
