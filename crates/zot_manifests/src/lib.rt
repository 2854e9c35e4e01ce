//! The manifests and tags of one repository: each call answers by the first case that fits, as finite maps of them would.
//!
//! `manifests.check(alloc, &held, &reference, media, body)` says whether a manifest may be put, `manifests.put(alloc, checked,
//! moment)` puts it, and `manifests.find(&reference)` gives its digest.
#![tactic(auto)]

mod check_error;
mod checked;
mod checking;
mod held;
mod index;
mod kept;
mod manifest_map;
mod manifests;
mod page;
mod references;
mod replaced;
mod tag_entry;
mod tag_map;
mod tags;

pub use crate::check_error::CheckError;
pub use crate::checked::Checked;
pub use crate::held::Held;
pub use crate::index::Index;
pub use crate::kept::Kept;
pub use crate::manifests::Manifests;
pub use crate::page::Page;
pub use crate::replaced::Replaced;
pub use crate::tag_entry::TagEntry;
