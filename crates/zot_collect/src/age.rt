//! Ages.
ghost use Rattle.std.specs.Prelude.{◌≡◌};
ghost use Rattle.zot_model.specs.Ages.{is_aged};

// Whether what arrived then is at least so many seconds old at the moment.
pub(crate) fn is_aged(moment: u64, delay: u64, arrived: u64) -> bool
    ensures { result ≡ is_aged moment delay arrived }
{
    arrived <= moment && delay <= moment - arrived
}
