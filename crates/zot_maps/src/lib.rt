//! Lemmas on finite maps under keys in any order, and on a tree's entries seen as such a map. There is no code.
//!
//! `entries-insert byte_order old new key value` in `proofs/Maps.antt`: a tree that took a value at a key stands for the map
//! with that value.
#![tactic(auto)]
