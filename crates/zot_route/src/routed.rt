//! What becomes of a message.
use zot_model::{Reply, Request};

/// What becomes of a message whose head and body are whole.
#[derive(Debug, Drop, PartialEq, Eq)]
pub enum Routed {
    /// It asks this.
    Request(Request),
    /// It asks for nothing, and is refused so.
    Refused(Reply),
}
