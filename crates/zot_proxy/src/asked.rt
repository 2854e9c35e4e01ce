//! What a member was asked.
use crate::peer_error::PeerError;
use zot_model::{Reply, Request};

/// One ask of a member, and what came of it.
#[derive(Debug, Drop)]
pub struct Asked {
    /// The number of the member.
    pub member: u32,
    /// The request that was handed on, with its hop.
    pub request: Request,
    /// The reply, or that there was none.
    pub result: Result<Reply, PeerError>,
}
