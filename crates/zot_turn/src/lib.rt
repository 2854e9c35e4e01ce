//! One value that threads share, in turns. What a thread then knows is a beginning of one legal history of that value.
//!
//! A thread takes a turn with its own seat: `shared.turn(&rt, &mut seat, &mut job)` runs the job once on the value.
#![tactic(auto)]

mod known;
mod object;
mod rule;
mod seat;
mod shared;
mod steps;

pub use object::{Job, Object};
pub use seat::{Seat, SeatAt};
pub use shared::{NoMemory, Shared};
