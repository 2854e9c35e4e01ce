//! Where connections come from.
ghost use Rattle.std.specs.Prelude.{◌≡◌, ◌<◌, IfOk};
ghost use Rattle.zot_outside.specs.Accepted.{IfStream};
ghost use Rattle.zot_outside.specs.Faults.{HasCause};

use crate::failed::Failed;
use crate::sockets::Accepted;
use crate::streams::{Sink, Source};

/// A listener for the connections of members.
pub trait Listener {
    ghost use Rattle.std.specs.Prelude.{ℕ};

    /// The end of a connection that bytes come from.
    type C: Source;

    /// The end of a connection that bytes go to.
    type K: Sink;

    // How many members there are: their numbers are below this.
    ghost members: { Self → ℕ };

    // How many calls have failed. The count stops at 2^64 - 1.
    ghost faults: { Self → ℕ };

    /// The next connection, or `Quiet` if a look found none waiting.
    fn accept(&mut self) -> Result<Accepted<Self::C, Self::K>, Failed>
        ensures cause { HasCause (faults self.old) (faults self.new) result }
        ensures member { IfOk result (λ accepted. IfStream accepted (λ member. member < members self.old)) }
        ensures kept { members self.new ≡ members self.old };
}
