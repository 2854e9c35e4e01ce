//! The part of a row that wasn't opened.
use zot_layout::LayoutError;

/// The part of a row that wasn't opened, and why. It is given back, so that its count of faults can be seen.
#[derive(Drop)]
pub struct UnopenedRow<S> {
    /// The part.
    pub part: S,
    /// Why the row wasn't opened.
    pub error: LayoutError,
}
