//! Cache records read.
ghost use Rattle.std.specs.Prelude.{◌≡◌, ◌≢◌, ◌==◌, List, [], true, false, Some, None, IfOk};
ghost use Rattle.std.specs.List.{slice_split};
ghost use Rattle.zot_links.specs.Records.{AreLines, each_line, in_order, is_feed, is_less, is_name, line_of, link_line, record_of, record_text, whole_line};
ghost use Rattle.zot_links.specs.declared.record_line.RecordLine.{RecordLine};

use crate::record_error::RecordError;
use crate::record_line::RecordLine;
use std::alloc::Global;
use std::cmp::Ordering;
use std::str;
use zot_cuts::cut;
use zot_names::{NameError, RepoName};

/// The lines of a cache record. `Bad` comes exactly where the bytes aren't the text of lines in order.
pub fn read_record(alloc: Global, bytes: &[u8]) -> Result<Vec<RecordLine>, RecordError>
    ensures read { IfOk result (λ lines. record_of bytes.now ≡ Some lines.items) }
    ensures bad { result ≡ Err RecordError.Bad → record_of bytes.now ≡ None }
    ensures text { IfOk result (λ lines. bytes.now ≡ record_text lines.items) }
    ensures lines { IfOk result (λ lines. AreLines lines.items) }
    ensures no_text { result ≡ Err RecordError.Bad → (lines : List RecordLine) → AreLines lines → bytes.now ≢ record_text lines }
{
    read_text(alloc, bytes)
}

// The lines of a cache record, where the bytes are one.
fn read_text(alloc: Global, bytes: &[u8]) -> Result<Vec<RecordLine>, RecordError>
    ensures read { IfOk result (λ lines. record_of bytes.now ≡ Some lines.items) }
    ensures bad { result ≡ Err RecordError.Bad → record_of bytes.now ≡ None }
{
    let Some((last, whole)) = bytes.split_last() else {
        return Ok(Vec::new(alloc));
    };
    if *last != b'\n' {
        return Err(RecordError::Bad);
    }
    let lines = read_lines(alloc, whole)?;
    if !in_order(lines.as_slice()) {
        return Err(RecordError::Bad);
    }
    Ok(lines)
}

// The lines that stand between the line feeds of a text.
fn read_lines(alloc: Global, text: &[u8]) -> Result<Vec<RecordLine>, RecordError>
    ensures read { IfOk result (λ lines. each_line (slice_split is_feed text.now) ≡ Some lines.items) }
    ensures bad { result ≡ Err RecordError.Bad → each_line (slice_split is_feed text.now) ≡ None }
{
    let mut lines = Vec::new(alloc);
    for part in text.split(|byte| *byte == b'\n') {
        lines.push(read_line(alloc, part)?)?;
    }
    Ok(lines)
}

// Whether each line's repository is greater than that of the line before it.
fn in_order(lines: &[RecordLine]) -> bool
    ensures { result ≡ in_order [] lines.now }
{
    let mut previous = b"".as_slice();
    for line in lines {
        let name = line.name.as_slice();
        if !is_less(previous, name) {
            return false;
        }
        previous = name;
    }
    true
}

// Whether some bytes are less than others.
fn is_less(bytes: &[u8], other: &[u8]) -> bool
    ensures { result ≡ is_less bytes.now other.now }
{
    match bytes.cmp(other) {
        Ordering::Less => true,
        Ordering::Equal | Ordering::Greater => false,
    }
}

// The line that a part of a record is, without its line feed.
fn read_line(alloc: Global, part: &[u8]) -> Result<RecordLine, RecordError>
    ensures read { IfOk result (λ line. line_of part.now ≡ Some line) }
    ensures bad { result ≡ Err RecordError.Bad → line_of part.now ≡ None }
{
    if let Some(name) = part.strip_prefix(b"W ") {
        return read_whole_line(alloc, name);
    }
    match part.strip_prefix(b"L ") {
        Some(rest) => read_link(alloc, rest),
        None => Err(RecordError::Bad),
    }
}

// The line of a whole object.
fn read_whole_line(alloc: Global, name: &[u8]) -> Result<RecordLine, RecordError>
    ensures read { IfOk result (λ line. whole_line name.now ≡ Some line) }
    ensures bad { result ≡ Err RecordError.Bad → whole_line name.now ≡ None }
{
    let name = read_name(alloc, name)?;
    Ok(RecordLine { name, origin: None })
}

// The line of a link.
fn read_link(alloc: Global, rest: &[u8]) -> Result<RecordLine, RecordError>
    ensures read { IfOk result (λ line. link_line rest.now ≡ Some line) }
    ensures bad { result ≡ Err RecordError.Bad → link_line rest.now ≡ None }
{
    let (name, origin) = cut(rest, b' ');
    let name = read_name(alloc, name)?;
    let origin = read_name(alloc, origin)?;
    Ok(RecordLine {
        name,
        origin: Some(origin),
    })
}

// The name that these bytes are.
fn read_name(alloc: Global, bytes: &[u8]) -> Result<RepoName, RecordError>
    ensures value { IfOk result (λ name. name ≡ bytes.now) }
    ensures read { IfOk result (λ _. is_name bytes.now ≡ true) }
    ensures bad { result ≡ Err RecordError.Bad → is_name bytes.now ≡ false }
{
    let Ok(text) = str::from_utf8(bytes) else {
        return Err(RecordError::Bad);
    };
    match RepoName::read(alloc, text) {
        Ok(name) => Ok(name),
        Err(NameError::Bad) => Err(RecordError::Bad),
        Err(NameError::NoMemory) => Err(RecordError::NoMemory),
    }
}
