//! What `verify` does.
ghost use Rattle.std.specs.Prelude.{◌≡◌, OnErr, OnOk};
ghost use Rattle.zot_commands.specs.Verify.{Verifies, members_line};
ghost use Rattle.zot_commands.specs.declared.ending.Ending.TheVariants as endings;
ghost use Rattle.zot_outside.specs.Faults.{HasCause};
ghost use Rattle.zot_outside.specs.Streams.{Appends};
ghost use Rattle.zot_session.specs.Causes.{Causes};
ghost use Rattle.zot_session.specs.Sending.{WritesPart};

use crate::ending::Ending;
use crate::texts::write_texts;
use itoa::Buffer;
use std::alloc::Global;
use zot_host::{Host, Unconfigured, configuration};
use zot_outside::{Failed, Sink};

/// Reads the configuration that the file of a path has, and writes how many members it has.
pub fn verify<H: Host, K: Sink>(alloc: Global, path: &str, host: &mut H, output: &mut K) -> Ending
    ensures ends { Verifies (H.files host.old) path.now result (λ line. Appends (K.held output.old) line (K.held output.new)) (λ line. WritesPart (K.held output.old) line (K.held output.new)) (output.new ≡ output.old) }
    ensures causes { Causes (result ≡ endings.HostFault) (result ≡ endings.WriteFault) (H.faults host.old) (H.faults host.new) (K.faults output.old) (K.faults output.new) }
    ensures files { H.files host.new ≡ H.files host.old }
{
    match configuration(alloc, host, path) {
        Ok(config) => match write_count(output, config.member_count()) {
            Ok(()) => Ending::Done,
            Err(Failed) => Ending::WriteFault,
        },
        Err(Unconfigured::Missing) => Ending::Missing,
        Err(Unconfigured::Failed) => Ending::HostFault,
        Err(Unconfigured::Wrong { field, found }) => Ending::Wrong { field, found },
        Err(Unconfigured::NoMemory) => Ending::NoMemory,
    }
}

// Writes the line for so many members, unless the output fails. After an `Err` a part of it was written.
#[tactic(auto, unfolding(crate::specs::Verify::members_line))]
fn write_count<K: Sink>(output: &mut K, members: u32) -> Result<(), Failed>
    ensures cause { HasCause (K.faults output.old) (K.faults output.new) result }
    ensures ok { OnOk result (Appends (K.held output.old) (members_line members) (K.held output.new)) }
    ensures err { OnErr result (WritesPart (K.held output.old) (members_line members) (K.held output.new)) }
{
    let mut buffer = Buffer::new();
    let digits = buffer.format(members).as_bytes();
    write_texts(output, &[b"ok ", digits, b" members\n"])
}
