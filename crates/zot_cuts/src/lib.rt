//! Bytes cut in two at the first byte of a value: `cut(b"a=b=c", b'=')` gives `a` and `b=c`.
#![tactic(auto)]

mod cutting;

pub use crate::cutting::cut;
