//! Why no call was read.
use std::alloc::AllocError;
use zot_model::Reply;

/// Why no call was read.
#[derive(Drop)]
pub enum Stop {
    /// The message makes none, and is refused so.
    Refused(Reply),
    /// Memory ran out.
    NoMemory,
}

impl From<AllocError> for Stop {
    ghost use Rattle.std.specs.Prelude.{◌≡◌};
    ghost use Rattle.zot_route.specs.declared.stop.Stop.TheVariants.{NoMemory};

    ghost from_gives = { λ _ stop. stop ≡ NoMemory };

    fn from(_: AllocError) -> Stop {
        Stop::NoMemory
    }
}
