//! What is passed before a request is answered or a content is fetched.

mod gate;
mod open_gate;
mod point;

pub use self::gate::Gate;
pub use self::open_gate::OpenGate;
pub use self::point::Point;
