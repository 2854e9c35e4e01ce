ghost use Rattle.std.specs.Prelude.{◌≡◌, ℕ, ◌<◌, ◌^◌, List, length, IsTrue};
ghost use Rattle.std.specs.List.{flat_map};

use crate::after::{after_line_byte, after_tail_byte, after_trailer_byte};
use crate::chunk_error::ChunkError;
use crate::fed::Fed;
use crate::pending::Pending;
use crate::stage::Stage;
use std::alloc::AllocError;
use std::marker::Model;

/// A reader of a body in chunks (RFC 9112, section 7.1), which comes in pieces.
#[derive(Drop)]
pub struct Chunks {
    room: u64,
    stage: Stage,
    line: Pending,
}

impl Model for Chunks {
    ghost use Rattle.zot_head.specs.Progress.{Progress, IsSound};

    ghost Value = { Progress };

    ghost view = { λ c. record { stage = c.stage; room = c.room; line = c.line } };

    ghost invariant = { λ c. IsSound c.stage c.line };
}

impl Chunks {
    ghost use Rattle.zot_head.specs.Chunked.{chunked};
    ghost use Rattle.zot_head.specs.Progress.{reading, goes_on, Feeds, Steps};
    ghost use Rattle.zot_head.specs.declared.stage.Stage.TheVariants as stages;

    /// A reader at the front of a body of at most so many bytes. Takes no memory.
    pub fn new(limit: u64) -> Self
        ensures { (bytes : List ℕ) → reading result bytes ≡ chunked limit bytes }
    {
        Chunks {
            room: limit,
            stage: Stage::Line,
            line: Pending::new(),
        }
    }

    /// Whether the body isn't over.
    fn goes_on(&self) -> bool
        ensures { result ≡ goes_on self.now.stage }
    {
        match self.stage {
            Stage::Done | Stage::Failed(_) => false,
            Stage::Line | Stage::Bytes(_) | Stage::Tail(_) | Stage::Trailer(..) => true,
        }
    }

    /// Gives out what the piece has of a chunk's bytes, of which so many are still to come.
    fn take_bytes(
        &mut self,
        size: u64,
        piece: &[u8],
        out: &mut Vec<u8>,
    ) -> Result<usize, AllocError>
        requires stage { self.old.stage ≡ stages.Bytes size }
        requires some { 0 < length piece.now }
        ensures { Steps self.old piece.now result self.new out.old.items out.new.items }
    {
        let n = size.min(piece.len() as u64);
        let len = n as usize;
        if out.extend_from_slice(&piece[..len]).is_err() {
            self.stage = Stage::Failed(ChunkError::NoMemory);
            return Err(AllocError);
        }
        self.stage = if n == size {
            Stage::Tail(None)
        } else {
            Stage::Bytes(size - n)
        };
        Ok(len)
    }

    /// One step: a byte, or what the piece has of a chunk's bytes. Answers how many bytes it took.
    fn step(&mut self, piece: &[u8], out: &mut Vec<u8>) -> Result<usize, AllocError>
        requires goes_on { IsTrue (goes_on self.old.stage) }
        requires some { 0 < length piece.now }
        ensures { Steps self.old piece.now result self.new out.old.items out.new.items }
    {
        let byte = piece[0];
        match self.stage {
            Stage::Line => {
                let (stage, room) = after_line_byte(&mut self.line, self.room, byte);
                self.stage = stage;
                self.room = room;
                Ok(1)
            }
            Stage::Bytes(size) => self.take_bytes(size, piece, out),
            Stage::Tail(first) => {
                self.stage = after_tail_byte(first, byte);
                Ok(1)
            }
            Stage::Trailer(so_far, left) => {
                self.stage = after_trailer_byte(so_far, left, byte);
                Ok(1)
            }
            Stage::Done | Stage::Failed(_) => unreachable!(),
        }
    }

    /// Reads the next piece, and adds the body's bytes in it to `out`. `done` comes with the last byte of
    /// the trailer section. `taken` says how many of the piece's bytes belong to the body in chunks; until
    /// the body is whole, all do. An error is answered again at each later call, and what was given out
    /// before it stays. `NoMemory` comes first only where the piece has a byte of the body that isn't given out.
    pub fn feed(&mut self, piece: &[u8], out: &mut Vec<u8>) -> Result<Fed, ChunkError>
        ensures { Feeds self.old piece.now result self.new out.old.items out.new.items }
    {
        let mut taken = 0;
        while taken < piece.len() && self.goes_on() {
            let Ok(n) = self.step(&piece[taken..], out) else {
                return Err(ChunkError::NoMemory);
            };
            taken += n;
        }
        match self.stage {
            Stage::Failed(error) => Err(error),
            Stage::Done => Ok(Fed { taken, done: true }),
            _ => Ok(Fed { taken, done: false }),
        }
    }

    /// Reads several pieces, one after another. It answers and gives out what one call over all their bytes
    /// would, however they were cut.
    pub fn feed_all(&mut self, pieces: &[Vec<u8>], out: &mut Vec<u8>) -> Result<Fed, ChunkError>
        requires { length (flat_map (λ piece. piece.items) pieces.now) < 2 ^ 64 }
        ensures { Feeds self.old (flat_map (λ piece. piece.items) pieces.now) result self.new
            out.old.items out.new.items }
    {
        let mut fed = self.feed(&[], out)?;
        for piece in pieces {
            if !fed.done {
                let next = self.feed(piece.as_slice(), out)?;
                fed = Fed {
                    taken: fed.taken + next.taken,
                    done: next.done,
                };
            }
        }
        Ok(fed)
    }
}
