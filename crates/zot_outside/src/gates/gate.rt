//! What is passed before a request is answered or a content is fetched.
use crate::gates::Point;

/// A gate, which hears what is about to be done. A call may wait.
pub trait Gate {
    /// Passes the gate at a point.
    fn pass(&self, point: &Point);
}
