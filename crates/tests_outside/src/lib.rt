//! Tests of the outside over the real things: a large file, streams, the system's clock and sockets.
//!
//! They stand above the crate that they test, which is then proved once. One is `loopback`: what a client writes to a port
//! of `TcpListeners` comes to the member that accepts it.
#![tactic(auto)]

#[cfg(test)]
mod tests;
