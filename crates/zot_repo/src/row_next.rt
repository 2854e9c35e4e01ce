//! What a call on a row leads to at once.
use zot_contents::PoolCall;
use zot_model::RowReply;

/// What a call on a row leads to at once: the pool is asked this, and its answer is waited for; or the call is answered.
#[derive(Drop)]
pub enum RowNext {
    Pool(PoolCall),
    Done(RowReply),
}
