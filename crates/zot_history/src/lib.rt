//! Histories of any kind: entries with numbers, those of one number taken out, and runs of steps. There is no code.
//!
//! `RunTo AreSame Step old entries new` in `specs/Run.antt`: the entries lead from one state to the other.
//! `run_append` in `proofs/Runs.antt` joins two runs.
#![tactic(auto)]
