//! The bytes that were taken from a source and belong to no message yet.
ghost use Rattle.std.specs.Prelude.{◌≡◌, ◌≤◌, ◌+◌, Err, IfErr, IfOk, OnErr, OnOk, length, max, drop, [], ◌++◌, vec_len, vec_capacity};
ghost use Rattle.zot_outside.specs.Faults.{HasCause};
ghost use Rattle.zot_outside.specs.Streams.{Reads, Takes};
ghost use Rattle.zot_session.specs.Causes.{Counts};
ghost use Rattle.zot_session.specs.Waiting.{CutShort, TakesPiece, held, piece};
ghost use Rattle.zot_session.specs.declared.cut.Cut.TheVariants as cuts;

use crate::cut::Cut;
use std::alloc::{AllocError, Global};
use std::marker::Model;
use zot_outside::{Failed, Source};

/// How many bytes a connection may bring.
pub const BUDGET: u64 = 1_099_511_627_776;

/// How many bytes are asked for at a time.
pub const PIECE: usize = 65_536;

/// The bytes that were taken from a source and belong to no message yet, and how many were taken in all. What was passed over is held until the next piece is taken, or until it is let go.
#[derive(Drop)]
pub struct Inbox {
    bytes: Vec<u8>,
    start: usize,
    buffer: Vec<u8>,
    taken: u64,
}

impl Model for Inbox {
    ghost use Rattle.std.specs.Prelude.{drop, vec_len};
    ghost use Rattle.zot_session.specs.Waiting.{IsInbox, Waiting};

    ghost Value = { Waiting };

    ghost view = { λ i. record { bytes = drop i.start i.bytes.items; spent = i.start; taken = i.taken } };

    ghost invariant = { λ i. IsInbox (vec_len i.bytes) i.start (vec_len i.buffer) i.taken };
}

impl Inbox {
    /// An inbox that has taken nothing.
    pub fn new(alloc: Global) -> Result<Inbox, AllocError>
        ensures { IfOk result (λ inbox. inbox ≡ record { bytes = []; spent = 0; taken = 0 }) }
    {
        let buffer = vec![in alloc; 0; PIECE]?;
        Ok(Inbox {
            bytes: Vec::new(alloc),
            start: 0,
            buffer,
            taken: 0,
        })
    }

    /// The bytes that wait.
    pub fn waiting(&self) -> &[u8]
        ensures { result.now ≡ self.now.bytes }
    {
        &self.bytes[self.start..]
    }

    /// How many bytes were taken in all.
    pub fn taken(&self) -> u64
        ensures { result ≡ self.now.taken }
    {
        self.taken
    }

    /// How many of them were passed over.
    pub fn passed(&self) -> u64
        ensures { result + length self.now.bytes ≡ self.now.taken }
    {
        self.taken - self.waiting().len() as u64
    }

    /// Passes over the first n bytes that wait. They are held until they are let go.
    pub fn pass(&mut self, n: usize)
        requires { n ≤ length self.old.bytes }
        ensures bytes { self.new.bytes ≡ drop n self.old.bytes }
        ensures taken { self.new.taken ≡ self.old.taken }
        ensures held { held self.new ≡ held self.old }
    {
        self.start += n;
    }

    /// Lets go of what was passed over, where more than a piece is held.
    pub fn settle(&mut self)
        ensures bytes { self.new.bytes ≡ self.old.bytes }
        ensures taken { self.new.taken ≡ self.old.taken }
        ensures held { held self.new ≤ max (length self.old.bytes) piece }
    {
        if self.bytes.len() > PIECE {
            self.let_go()
        }
    }

    // Lets go of what was passed over.
    fn let_go(&mut self)
        ensures { self.new ≡ record self.old { spent = 0 } }
    {
        let left = self.bytes.len() - self.start;
        self.bytes.copy_within(self.start.., 0);
        self.bytes.truncate(left);
        self.start = 0;
    }

    /// Lets go of what was passed over, and takes the next piece from a source. After an `Err` none was taken.
    pub fn take<C: Source>(&mut self, source: &mut C) -> Result<(), Cut>
        ensures piece { OnOk result (TakesPiece self.old self.new (C.left source.old) (C.left source.new)) }
        ensures cut { IfErr result (λ cut. CutShort cut self.old self.new (C.left source.old) (C.left source.new)) }
        ensures faults { Counts (result ≡ Err cuts.Fault) (C.faults source.old) (C.faults source.new) }
    {
        self.let_go();
        let room = (BUDGET - self.taken).min(PIECE as u64) as usize;
        if room == 0 {
            return Err(Cut::Full);
        }
        if self.bytes.reserve(PIECE).is_err() {
            return Err(Cut::NoMemory);
        }
        match read_into(source, self.buffer.as_mut_slice(), room) {
            Err(Failed) => Err(Cut::Fault),
            Ok(0) => Err(Cut::Over),
            Ok(n) => {
                add(&mut self.bytes, &self.buffer[..n]);
                self.taken += n as u64;
                Ok(())
            }
        }
    }
}

// Reads into the front of a buffer.
fn read_into<C: Source>(source: &mut C, buffer: &mut [u8], room: usize) -> Result<usize, Failed>
    requires { room ≤ length buffer.old }
    ensures cause { HasCause (C.faults source.old) (C.faults source.new) result }
    ensures ok { IfOk result (λ n. Reads (C.left source.old) room buffer.new n (C.left source.new)) }
    ensures err { OnErr result (Takes (C.left source.old) [] (C.left source.new)) }
{
    source.read(&mut buffer[..room])
}

// Adds a piece for which there is room.
fn add(bytes: &mut Vec<u8>, piece: &[u8])
    requires { vec_len bytes.old + length piece.now ≤ vec_capacity bytes.old }
    ensures { bytes.new.items ≡ bytes.old.items ++ piece.now }
{
    match bytes.extend_from_slice(piece) {
        Ok(()) => {}
        Err(_) => unreachable!(),
    }
}
