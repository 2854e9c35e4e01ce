//! A member of a cluster: which of its requests it answers, by its rows, and for which it asks the member that owns the repository.
//!
//! `Member::new(config, number)` is one; `answer(alloc, rows, peers, ..)` answers a request that came to it, and `answer_alone(alloc, rows, ..)` one for which no other member is to be asked. `answer_at(alloc, rows, .., member, &request)` answers at any member of one process: the rows of all of them, with their pool, are lent to the member that owns the repository, which the others ask with the bytes of the wire.
#![tactic(auto)]

mod alone;
mod answering;
mod asking;
mod member;
mod neighbours;
mod place;
mod process;

pub use crate::member::Member;
pub use crate::place::Place;
pub use crate::process::answer_at;
