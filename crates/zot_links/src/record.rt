//! The text of a cache record.
ghost use Rattle.std.specs.Prelude.{◌≡◌, Some, IfOk, OnOk};
ghost use Rattle.zot_links.specs.Records.{AreLines, add_text, record_of, record_text};

use crate::record_line::RecordLine;
use std::alloc::{AllocError, Global};

/// The text of the record of these lines. Where the lines are in order, `read_record` reads it as them. It fails only where memory runs out.
pub fn record_text(alloc: Global, lines: &[RecordLine]) -> Result<Vec<u8>, AllocError>
    ensures text { IfOk result (λ text. text.items ≡ record_text lines.now) }
    ensures comes_back { IfOk result (λ text. AreLines lines.now → record_of text.items ≡ Some lines.now) }
{
    let mut text = Vec::new(alloc);
    for line in lines {
        add_line(&mut text, line)?;
    }
    Ok(text)
}

// Adds a line after a text.
fn add_line(text: &mut Vec<u8>, line: &RecordLine) -> Result<(), AllocError>
    ensures { OnOk result (text.new.items ≡ add_text text.old.items line.now) }
{
    match &line.origin {
        Some(origin) => {
            text.extend_from_slice(b"L ")?;
            text.extend_from_slice(line.name.as_slice())?;
            text.push(b' ')?;
            text.extend_from_slice(origin.as_slice())?;
        }
        None => {
            text.extend_from_slice(b"W ")?;
            text.extend_from_slice(line.name.as_slice())?;
        }
    }
    text.push(b'\n')?;
    Ok(())
}
