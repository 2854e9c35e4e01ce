//! A part whose shard wasn't opened.
use crate::layout_fault::LayoutFault;

/// A part of the store whose shard wasn't opened, and why. The part is given back, so that its count of faults can be seen.
#[derive(Drop)]
pub struct Unopened<S> {
    /// The part.
    pub part: S,
    /// Why its shard wasn't opened.
    pub fault: LayoutFault,
}
