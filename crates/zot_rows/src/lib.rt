//! The rows of a cluster over one pool: what each row's repositories hold, and requests on them.
//!
//! `Rows::open(alloc, config, parts, shards, dedupe, moment)` opens them, and the pool, over their parts of the store; `close` gives the parts back.
#![tactic(auto)]

mod answering;
mod closing;
mod laws;
mod listing;
mod opening;
mod rows;
mod rows_open_error;
mod unopened_rows;

pub use crate::laws::rows_own_their_names;
pub use crate::listing::held_by_rows;
pub use crate::rows::Rows;
pub use crate::rows_open_error::RowsOpenError;
pub use crate::unopened_rows::UnopenedRows;
