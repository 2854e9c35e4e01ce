//! The registry's program. It hands the real streams, host and words to `run_given`, and ends with the status that this answers.
//!
//! `zotd pipe` serves one connection from standard input to standard output over rows in memory, `zotd pipe CONFIG MEMBER` at a member of a configured cluster over its storage, and `zotd verify CONFIG` reads a configuration.
#![tactic(auto)]

mod arguments;

use crate::arguments::arguments;
use std::process::ExitCode;
use zot_commands::run_given;
use zot_host::SystemHost;
use zot_outside::{ReaderSource, WriterSink};

fn main(rt: HostRuntime) -> ExitCode {
    let mut input = ReaderSource::new(rt.stdin());
    let mut output = WriterSink::new(rt.stdout());
    let mut notes = WriterSink::new(rt.stderr());
    let mut host = SystemHost::new(rt);
    let given = arguments(&rt);
    let status = run_given(
        rt.alloc(),
        given,
        &mut host,
        &mut input,
        &mut output,
        &mut notes,
    );
    ExitCode::from(status.code)
}
