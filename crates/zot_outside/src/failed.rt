//! What a call of the outside answers that failed.

/// The call failed, and the count of faults of the object that it was made on rose.
#[derive(Clone, Copy, Debug, PartialEq)]
pub struct Failed;
