//! The components of a repository's name.
ghost use Rattle.std.specs.Prelude.{◌≡◌};
ghost use Rattle.zot_names.specs.Reading.{completes, may_end, place_after};
ghost use Rattle.zot_names.specs.declared.component.Place.TheVariants as places;

/// Where the reader of a component stands.
#[derive(Clone, Copy)]
enum Place {
    /// Where a run has to begin: at the front, or after `.` or `__`.
    Start,
    /// After a letter or a digit.
    Run,
    /// After one `_`.
    Underscore,
    /// After one or more `-`.
    Dashes,
}

impl Place {
    // The place after this byte, or none where the byte can't stand here.
    fn after(self, byte: u8) -> Option<Place>
        ensures { result ≡ place_after self byte }
    {
        if byte.is_ascii_lowercase() || byte.is_ascii_digit() {
            return Some(Place::Run);
        }
        match self {
            Place::Start => None,
            Place::Run => match byte {
                b'.' => Some(Place::Start),
                b'_' => Some(Place::Underscore),
                b'-' => Some(Place::Dashes),
                _ => None,
            },
            Place::Underscore => (byte == b'_').then_some(Place::Start),
            Place::Dashes => (byte == b'-').then_some(Place::Dashes),
        }
    }

    // Whether a component may end here.
    fn may_end(self) -> bool
        ensures { result ≡ may_end self }
    {
        match self {
            Place::Run => true,
            Place::Start | Place::Underscore | Place::Dashes => false,
        }
    }
}

/// Whether these bytes are a component. Takes no memory.
pub fn is_component(bytes: &[u8]) -> bool
    ensures { result ≡ completes (Some places.Start) bytes.now }
{
    let mut place = Place::Start;
    for byte in bytes {
        let Some(next) = place.after(*byte) else {
            return false;
        };
        place = next;
    }
    place.may_end()
}
