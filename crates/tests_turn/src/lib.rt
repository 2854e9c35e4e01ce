//! Tests of turns that threads take at a shared value.
//!
//! They stand above the crate that they test, which is then proved once. One is `raised_by_two`: two threads raise a
//! number a thousand times each, which gives 2000 by its contract and when it runs.
#![tactic(auto)]

#[cfg(test)]
mod counter;
#[cfg(test)]
mod light;
#[cfg(test)]
mod row;
#[cfg(test)]
mod tests;
