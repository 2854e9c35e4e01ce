//! Texts written to a sink.
ghost use Rattle.std.specs.Prelude.{OnErr, OnOk};
ghost use Rattle.zot_outside.specs.Faults.{HasCause};
ghost use Rattle.zot_outside.specs.Streams.{Appends};
ghost use Rattle.zot_session.specs.Sending.{WritesPart};
ghost use Rattle.zot_commands.specs.Program.{joined};

use zot_outside::{Failed, Sink};
use zot_session::write_all;

/// Writes some texts one after another, unless the sink fails. Takes no memory. After an `Err` a part of them was written.
pub fn write_texts<K: Sink>(sink: &mut K, texts: &[&[u8]]) -> Result<(), Failed>
    ensures cause { HasCause (K.faults sink.old) (K.faults sink.new) result }
    ensures ok { OnOk result (Appends (K.held sink.old) (joined texts.now) (K.held sink.new)) }
    ensures err { OnErr result (WritesPart (K.held sink.old) (joined texts.now) (K.held sink.new)) }
{
    match texts {
        [first, rest @ ..] => {
            write_all(sink, first)?;
            write_texts(sink, rest)
        }
        [] => Ok(()),
    }
}
