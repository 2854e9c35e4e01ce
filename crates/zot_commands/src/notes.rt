//! The lines that the program notes.
ghost use Rattle.zot_commands.specs.PipeEndings.{bad_index_line, bad_meta_line, pipe_line, storage_fault_line};
ghost use Rattle.zot_commands.specs.Program.{Notes, config_line, host_fault_line, joined, line, line_of, missing_line, no_memory_line, words_line, write_fault_line};
ghost use Rattle.zot_commands.specs.Verify.{ending_line};

use crate::ending::Ending;
use crate::pipe_ending::PipeEnding;
use crate::texts::write_texts;
use itoa::Buffer;
use zot_outside::Sink;
use zot_session::End;

/// Notes how a connection ended, unless it was closed between messages. Takes no memory; a failing write is ignored.
#[tactic(auto, unfolding(crate::specs::Program::line_of))]
pub fn note_end<N: Sink>(notes: &mut N, end: End)
    ensures { Notes (line_of end) (N.held notes.old) (N.held notes.new) (N.faults notes.old) (N.faults notes.new) }
{
    match end {
        End::Closed => {}
        End::Refused(status) => note_number(notes, b"zotd: refused", status as u64),
        End::Torn(n) => note_number(notes, b"zotd: torn", n),
        End::ReadFault => note(notes, b"zotd: read fault"),
        End::WriteFault => note_write_fault(notes),
        End::Budget => note(notes, b"zotd: budget"),
        End::NoMemory => note_no_memory(notes),
    }
}

/// Notes how `verify` ended with the file of a path, unless it was done. Takes no memory; a failing write is ignored.
pub fn note_ending<N: Sink>(notes: &mut N, path: &str, ending: &Ending)
    ensures { Notes (ending_line path.now ending.now) (N.held notes.old) (N.held notes.new) (N.faults notes.old) (N.faults notes.new) }
{
    match ending {
        Ending::Done => {}
        Ending::WriteFault => note_write_fault(notes),
        Ending::NoMemory => note_no_memory(notes),
        Ending::Wrong { field, found } => note_wrong(notes, field.as_str(), found.as_str()),
        Ending::HostFault => note_host_fault(notes),
        Ending::Missing => note_missing(notes, path),
    }
}

/// Notes how `pipe` ended over the storage of the configuration in the file of a path, unless its connection was closed between messages. Takes no memory; a failing write is ignored.
pub fn note_pipe<N: Sink>(notes: &mut N, path: &str, ending: &PipeEnding)
    ensures { Notes (pipe_line path.now ending.now) (N.held notes.old) (N.held notes.new) (N.faults notes.old) (N.faults notes.new) }
{
    match ending {
        PipeEnding::Served(end) => note_end(notes, *end),
        PipeEnding::Wrong { field, found } => note_wrong(notes, field.as_str(), found.as_str()),
        PipeEnding::Missing => note_missing(notes, path),
        PipeEnding::OutOfRange => note_words(notes),
        PipeEnding::HostFault => note_host_fault(notes),
        PipeEnding::BadIndex(path) => note_bad_index(notes, path.as_str()),
        PipeEnding::BadMeta(path) => note_bad_meta(notes, path.as_str()),
        PipeEnding::StorageFault => note_storage_fault(notes),
        PipeEnding::NoMemory => note_no_memory(notes),
    }
}

/// Notes that the words fit no command. Takes no memory; a failing write is ignored.
#[tactic(auto, unfolding(crate::specs::Program::words_line))]
pub fn note_words<N: Sink>(notes: &mut N)
    ensures { Notes words_line (N.held notes.old) (N.held notes.new) (N.faults notes.old) (N.faults notes.new) }
{
    note(notes, b"zotd: words");
}

// Notes that a write to the output failed.
#[tactic(auto, unfolding(crate::specs::Program::write_fault_line))]
fn note_write_fault<N: Sink>(notes: &mut N)
    ensures { Notes write_fault_line (N.held notes.old) (N.held notes.new) (N.faults notes.old) (N.faults notes.new) }
{
    note(notes, b"zotd: write fault");
}

// Notes that memory ran out.
#[tactic(auto, unfolding(crate::specs::Program::no_memory_line))]
fn note_no_memory<N: Sink>(notes: &mut N)
    ensures { Notes no_memory_line (N.held notes.old) (N.held notes.new) (N.faults notes.old) (N.faults notes.new) }
{
    note(notes, b"zotd: no memory");
}

// Notes that a call on the host failed.
#[tactic(auto, unfolding(crate::specs::Program::host_fault_line))]
fn note_host_fault<N: Sink>(notes: &mut N)
    ensures { Notes host_fault_line (N.held notes.old) (N.held notes.new) (N.faults notes.old) (N.faults notes.new) }
{
    note(notes, b"zotd: host fault");
}

// Notes that the storage failed.
#[tactic(auto, unfolding(crate::specs::PipeEndings::storage_fault_line))]
fn note_storage_fault<N: Sink>(notes: &mut N)
    ensures { Notes storage_fault_line (N.held notes.old) (N.held notes.new) (N.faults notes.old) (N.faults notes.new) }
{
    note(notes, b"zotd: storage fault");
}

// Notes the first wrong field of a configuration, and the text found there.
#[tactic(auto, unfolding(crate::specs::Program::config_line))]
fn note_wrong<N: Sink>(notes: &mut N, field: &str, found: &str)
    ensures { Notes (config_line field.now found.now) (N.held notes.old) (N.held notes.new) (N.faults notes.old) (N.faults notes.new) }
{
    note_texts(
        notes,
        &[
            b"zotd: config ",
            field.as_bytes(),
            b": ",
            found.as_bytes(),
            b"\n",
        ],
    );
}

// Notes that the file of a path isn't there.
#[tactic(auto, unfolding(crate::specs::Program::missing_line))]
fn note_missing<N: Sink>(notes: &mut N, path: &str)
    ensures { Notes (missing_line path.now) (N.held notes.old) (N.held notes.new) (N.faults notes.old) (N.faults notes.new) }
{
    note_texts(notes, &[b"zotd: missing ", path.as_bytes(), b"\n"]);
}

// Notes that the object at a path of the storage has no meaning, where an index is wanted.
#[tactic(auto, unfolding(crate::specs::PipeEndings::bad_index_line))]
fn note_bad_index<N: Sink>(notes: &mut N, path: &str)
    ensures { Notes (bad_index_line path.now) (N.held notes.old) (N.held notes.new) (N.faults notes.old) (N.faults notes.new) }
{
    note_texts(notes, &[b"zotd: bad index ", path.as_bytes(), b"\n"]);
}

// The same where a record is wanted.
#[tactic(auto, unfolding(crate::specs::PipeEndings::bad_meta_line))]
fn note_bad_meta<N: Sink>(notes: &mut N, path: &str)
    ensures { Notes (bad_meta_line path.now) (N.held notes.old) (N.held notes.new) (N.faults notes.old) (N.faults notes.new) }
{
    note_texts(notes, &[b"zotd: bad meta ", path.as_bytes(), b"\n"]);
}

// Notes a line of these words.
#[tactic(auto, unfolding(crate::specs::Program::line))]
fn note<N: Sink>(notes: &mut N, words: &[u8])
    ensures { Notes (line words.now None) (N.held notes.old) (N.held notes.new) (N.faults notes.old) (N.faults notes.new) }
{
    note_texts(notes, &[words, b"\n"]);
}

// Notes a line of these words, a space and a number.
#[tactic(auto, unfolding(crate::specs::Program::line))]
fn note_number<N: Sink>(notes: &mut N, words: &[u8], n: u64)
    ensures { Notes (line words.now (Some n)) (N.held notes.old) (N.held notes.new) (N.faults notes.old) (N.faults notes.new) }
{
    let mut buffer = Buffer::new();
    let digits = buffer.format(n).as_bytes();
    note_texts(notes, &[words, b" ", digits, b"\n"]);
}

// Notes some texts one after another.
fn note_texts<N: Sink>(notes: &mut N, texts: &[&[u8]])
    ensures { Notes (joined texts.now) (N.held notes.old) (N.held notes.new) (N.faults notes.old) (N.faults notes.new) }
{
    let _ = write_texts(notes, texts);
}
