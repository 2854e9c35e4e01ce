//! Where objects are kept by their paths.

mod laws;
mod parts;
mod path_walk;
mod store;
mod store_error;
mod whole;

pub use self::laws::{
    append_changes, calls_join, calls_leave_others, change_is_one, copy_changes, delete_changes,
    listed_as_held, listing_ends, next_lists, put_changes,
};
pub use self::parts::Parts;
pub use self::path_walk::PathWalk;
pub use self::store::Store;
pub use self::store_error::{StoreError, StoreResult};
pub use self::whole::{contradicted, has_bytes, read_whole};
