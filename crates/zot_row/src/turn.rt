//! What a call on a repository leads to at once.
use crate::stage::Stage;
use zot_contents::PoolCall;
use zot_model::Reply;

/// What a call on a repository leads to at once: the pool is asked this, and its answer is waited for; or the call is answered.
#[derive(Drop)]
pub enum Turn {
    Asks(PoolCall, Stage),
    Done(Reply),
}
