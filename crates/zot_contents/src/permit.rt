//! The right to fetch a content.
ghost use Rattle.std.specs.Prelude.{◌≡◌};

use zot_digest::Digest;

/// The right to fetch the content of a digest, which the flight of the digest gives. It can't be dropped or copied: it is spent where the flight ends.
#[derive(Debug)]
pub struct Permit {
    digest: Digest,
    seat: u64,
}

impl Permit {
    /// The digest.
    pub fn digest(&self) -> &Digest
        ensures { result.now ≡ self.now.digest }
    {
        &self.digest
    }

    /// The number of the seat that has the flight.
    pub fn seat(&self) -> u64
        ensures { result ≡ self.now.seat }
    {
        self.seat
    }
}
