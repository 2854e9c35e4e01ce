//! Between members: the bytes by which one hands a request on to another, and what it may count on that asks one.
//!
//! `forwarded(alloc, &request)` gives the head of these bytes and lends the body; the member that reads both reads the
//! request, with its hop. `carry_back(alloc, &request, &reply)` gives the reply that is read of the bytes by which one is
//! handed back. `Peer` is the contract of the members that can be asked, and `MemoryPeer::new(alloc, replies, failing)` are
//! members that answer with these replies, in order, and keep what they were asked.
#![tactic(auto)]

mod asked;
mod carrying_back;
mod forwarding;
mod memory_peer;
mod peer;
mod peer_error;

pub use crate::asked::Asked;
pub use crate::carrying_back::carry_back;
pub use crate::forwarding::{WireRequest, forwarded};
pub use crate::memory_peer::MemoryPeer;
pub use crate::peer::Peer;
pub use crate::peer_error::PeerError;
