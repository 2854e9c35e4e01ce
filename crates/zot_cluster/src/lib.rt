//! A cluster over its storage: the rows of all members, the pool of digests, and connections at any member.
//!
//! `Cluster::open(alloc, config, parts, moment)` opens it over its parts of the store; `serve_connection(alloc, &mut cluster, member, ..)` serves one connection, and `serve_rows(alloc, &mut rows, member, ..)` one over rows that no configuration gives; `close` gives the parts back.
#![tactic(auto)]

mod answering;
mod cluster;
mod connection;
mod laws;
mod opening;

pub use crate::cluster::Cluster;
pub use crate::connection::{serve_connection, serve_rows};
pub use crate::laws::connections_follow;
