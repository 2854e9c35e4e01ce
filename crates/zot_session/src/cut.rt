//! Why no more bytes of a connection come.
ghost use Rattle.std.specs.Prelude.{◌≡◌};
ghost use Rattle.zot_session.specs.Cuts.{end_at};

use crate::end::End;

/// Why no more bytes of a connection come.
#[derive(Clone, Copy)]
pub enum Cut {
    /// Nothing is left.
    Over,
    /// The source failed.
    Fault,
    /// The connection brought all the bytes that it may.
    Full,
    /// Memory ran out.
    NoMemory,
}

impl Cut {
    /// The end of a connection that is cut with so many bytes of a message, of which none or all belong to empty lines (`blank`).
    pub fn end(self, blank: bool, came: u64) -> End
        ensures { result ≡ end_at self blank came }
    {
        match self {
            Cut::Over => { if blank { End::Closed } else { End::Torn(came) } }
            Cut::Fault => End::ReadFault,
            Cut::Full => End::Budget,
            Cut::NoMemory => End::NoMemory,
        }
    }
}
