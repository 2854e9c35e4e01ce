//! The host: what the program takes from the system beside its streams. It gives files, parts of the storage, upstreams, clocks and gates, and is given the parts back.
//!
//! `configuration(alloc, &mut host, "zot.json")` is the configuration that this file of a host has, or the cause why there is none.
//! `take_parts(alloc, &mut host, root, members)` takes the parts of a cluster's storage, and `keep_parts(&mut host, parts)` gives them back.
//! `SystemHost` is the system; `MemoryHost` has its files and parts in memory, and tells them.
#![tactic(auto)]

mod answers;
mod host;
mod host_error;
mod memory_host;
mod parts;
mod reading;
mod room;
mod scratch;
mod system_host;
mod unconfigured;

pub use crate::host::Host;
pub use crate::host_error::{HostError, HostResult};
pub use crate::memory_host::MemoryHost;
pub use crate::parts::{keep_parts, take_parts};
pub use crate::reading::configuration;
pub use crate::scratch::{scratch_part, scratch_path};
pub use crate::system_host::SystemHost;
pub use crate::unconfigured::Unconfigured;
