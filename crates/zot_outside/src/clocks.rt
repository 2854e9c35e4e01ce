//! What tells the time.

mod clock;
mod system_clock;

pub use self::clock::Clock;
pub use self::system_clock::SystemClock;
