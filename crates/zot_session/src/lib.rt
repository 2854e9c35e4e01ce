//! The requests of one connection, answered in order: each once, by the message that stands there, until the connection ends for a cause that `End` names.
//!
//! `session(alloc, &mut answers, &mut source, &mut sink)` reads `GET /v2/ HTTP/1.1` and an empty line from the source, asks `answers`, writes the reply, and gives `End::Closed` where the source ends there.
#![tactic(auto)]

mod answers;
mod blank;
mod body;
mod cut;
mod end;
mod heading;
mod inbox;
mod laws;
mod receiving;
mod send_error;
mod sending;
mod serving;

pub use crate::answers::Answers;
pub use crate::end::End;
pub use crate::laws::{end_is_one, requests_are_read};
pub use crate::sending::write_all;
pub use crate::serving::session;
