//! What a collection removes from a repository.
//!
//! `retire(alloc, policy, &state, moment, delay)` gives the tags and manifests that go, and `sweepable(alloc, &state, moment,
//! delay)` the blobs that are old enough and that no manifest holds. Both are functions of what the repository has; nothing
//! is removed here.
#![tactic(auto)]

mod age;
mod children;
mod held;
mod laws;
mod leftover;
mod order;
mod place;
mod registry;
mod retire_view;
mod retired;
mod retiring;
mod roots;
mod staying;
mod sweeping;

pub use crate::laws::{child_stays, collected_again, removed_once, swept_again};
pub use crate::order::are_in_order;
pub use crate::registry::{retired_by_rules, swept_one_by_one};
pub use crate::retire_view::RetireView;
pub use crate::retired::Retired;
pub use crate::retiring::retire;
pub use crate::sweeping::sweepable;
pub use zot_model::ManifestRow;
