//! The commands of the registry's program: what it does for its words, over any host, input, output and notes.
//!
//! `run_given(alloc, arguments, &mut host, &mut input, &mut output, &mut notes)` runs the command and answers the exit status.
#![tactic(auto)]

mod ending;
mod memory;
mod notes;
mod pipe_ending;
mod plain;
mod running;
mod status;
mod storage;
mod texts;
mod verifying;
mod waiting;

pub use crate::ending::Ending;
pub use crate::memory::memory_rows;
pub use crate::pipe_ending::PipeEnding;
pub use crate::plain::run_plain;
pub use crate::running::run_given;
pub use crate::status::Status;
pub use crate::storage::pipe_at;
pub use crate::waiting::run_waiting;
