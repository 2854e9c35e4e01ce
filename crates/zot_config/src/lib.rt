//! The configuration of a cluster: what an operator writes, read exactly, or refused with its first wrong field.
//!
//! `read_config(alloc, bytes)` gives the `Config` that a JSON text stands for. For a key of 15 bytes it gives the
//! field `cluster.hashKey` and the text found there.
#![tactic(auto)]

mod address;
mod address_list;
mod cluster;
mod config;
mod config_error;
mod field;
mod forms;
mod found;
mod laws;
mod object;
mod read;
mod storage;
mod unknown;
mod wrong;

pub use crate::address::{Address, is_address};
pub use crate::address_list::AddressList;
pub use crate::config::Config;
pub use crate::config_error::ConfigError;
pub use crate::laws::{read_is_one, values_have_trees};
pub use crate::read::read_config;
