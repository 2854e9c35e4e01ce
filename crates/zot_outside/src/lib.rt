//! The outside: where bytes come from and go to, where objects are kept, the time, and connections.
//!
//! Each is a trait with a count of faults, and a call answers that it failed only where that count rose. Real streams, sockets and the system's clock stand beside their traits: `WriterSink::new(rt.stdout()).write(b"text")` writes to the output.
#![tactic(auto)]

mod clocks;
mod failed;
mod gates;
mod sockets;
mod stores;
mod streams;

pub use crate::clocks::{Clock, SystemClock};
pub use crate::failed::Failed;
pub use crate::gates::{Gate, OpenGate, Point};
pub use crate::sockets::{Accepted, BindError, Listener, TcpListeners};
pub use crate::stores::{
    Parts, PathWalk, Store, StoreError, StoreResult, append_changes, calls_join,
    calls_leave_others, change_is_one, contradicted, copy_changes, delete_changes, has_bytes,
    listed_as_held, listing_ends, next_lists, put_changes, read_whole,
};
pub use crate::streams::{ReaderSource, Sink, Source, WriterSink};
