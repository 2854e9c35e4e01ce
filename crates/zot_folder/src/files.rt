//! Open files.
ghost use Rattle.std.specs.Prelude.{◌≡◌, ◌<◌, ◌≤◌, IfOk, IfSome, OnOk, length, take};
ghost use Rattle.zot_outside.specs.Streams.{Appends, IsOver, Takes};

use std::alloc::Global;
use std::fs::{File, Files, OpenOptions, TryLockError};
use std::io::{ErrorKind, Read, Seek, SeekFrom, Write};
use std::{fs, io};

/// How many bytes of a file are copied at a time.
const PIECE: usize = 262_144;

/// Fills a buffer from a place of a reader on, as far as the reader reaches, and answers how many bytes there are. Where they don't fill the buffer, nothing is left.
pub fn read_from<S: Read + Seek>(source: &mut S, at: u64, buf: &mut [u8]) -> io::Result<usize>
    ensures within { IfOk result (λ n. n ≤ length buf.new) }
    ensures over { IfOk result (λ n. n < length buf.new → IsOver (S.remaining source.new)) }
{
    source.seek(SeekFrom::Start(at))?;
    fill(source, buf)
}

// Fills a buffer as far as a reader reaches, and answers how many bytes there are. Where they don't fill the buffer, nothing is left.
fn fill<S: Read>(source: &mut S, buf: &mut [u8]) -> io::Result<usize>
    ensures within { IfOk result (λ n. n ≤ length buf.new) }
    ensures room { length buf.new ≡ length buf.old }
    ensures taken { IfOk result (λ n. Takes (S.remaining source.old) (take n buf.new) (S.remaining source.new)) }
    ensures over { IfOk result (λ n. n < length buf.new → IsOver (S.remaining source.new)) }
{
    let mut n = 0;
    while n < buf.len() {
        let more = source.read(&mut buf[n..])?;
        if more == 0 {
            break;
        }
        n += more;
    }
    Ok(n)
}

/// Writes all that a reader has left to a writer, in large pieces.
pub fn copy_all<S: Read, W: Write>(alloc: Global, source: &mut S, sink: &mut W) -> io::Result<()>
    ensures { OnOk result (IfSome (S.remaining source.old) (λ left. Appends (W.contents sink.old) left (W.contents sink.new))) }
{
    let mut buf = vec![in alloc; 0; PIECE]?;
    copy_by(source, sink, buf.as_mut_slice())
}

// The same in pieces as large as a buffer.
fn copy_by<S: Read, W: Write>(source: &mut S, sink: &mut W, buf: &mut [u8]) -> io::Result<()>
    ensures { OnOk result (IfSome (S.remaining source.old) (λ left. Appends (W.contents sink.old) left (W.contents sink.new))) }
{
    for _ in 0..u64::MAX {
        let n = fill(source, buf)?;
        sink.write_all(&buf[..n])?;
        if n < buf.len() {
            return Ok(());
        }
    }
    Err(io::Error::from(ErrorKind::Other))
}

/// Makes a new file and locks it, so that no store takes it for one that was left over, or answers `None` if something has its name.
pub fn create_locked<R: Files<File = File>>(rt: &R, file: &str) -> io::Result<Option<File>> {
    match OpenOptions::new()
        .write(true)
        .create_new(true)
        .open(rt, file)
    {
        Ok(fresh) => {
            lock(&fresh)?;
            Ok(Some(fresh))
        }
        Err(error) if error.kind() == ErrorKind::AlreadyExists => Ok(None),
        Err(error) => Err(error),
    }
}

// Locks a file, where its file system can do that. Another store that has it locked is about to remove it.
fn lock(fresh: &File) -> io::Result<()> {
    match fresh.try_lock() {
        Err(TryLockError::WouldBlock) => Err(io::Error::from(ErrorKind::NotFound)),
        _ => Ok(()),
    }
}

/// Removes a file, unless a store has it locked.
pub fn remove_unlocked<R: Files<File = File>>(rt: &R, file: &str) -> io::Result<()> {
    if !fs::symlink_metadata(rt, file)?.is_file() {
        return Ok(());
    }
    let left = fs::open(rt, file)?;
    match left.try_lock() {
        Ok(()) => fs::remove_file(rt, file),
        Err(_) => Ok(()),
    }
}
