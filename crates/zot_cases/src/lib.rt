//! Cases of test programs: read from standard input, one a line, and reported on standard output, one a line.
//!
//! A line is `NAME: CALL GIVEN => WANTED`. Blank lines and lines that begin with `#` are passed over. A program hands
//! `run` the function that makes a case's call and says what it answered:
//!
//! ```text
//! run(&rt, |case, answer| answer.say(case.given))
//! ```
#![tactic(auto)]

mod answer;
mod case;
mod notation;
mod running;

pub use crate::answer::Answer;
pub use crate::case::{Case, cut, number, word};
pub use crate::running::run;
