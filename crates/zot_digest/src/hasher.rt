//! Digests computed from bytes.
ghost use Rattle.std.specs.Prelude.{◌≡◌, ℕ, List, [], ◌++◌};
ghost use Rattle.sha2.specs.Sha256.{sha256};

use crate::value::Digest;
use sha2::{Digest as _, Sha256};

/// The SHA-256 value of bytes that come in pieces.
#[derive(Drop)]
pub struct Hasher {
    state: Sha256,
}

impl Hasher {
    ghost use Rattle.zot_digest.specs.Hasher.{HasTaken};

    /// A hasher that has taken nothing yet. Takes no memory.
    pub fn new() -> Self
        ensures { HasTaken result [] }
    {
        Hasher {
            state: Sha256::new(),
        }
    }

    /// Takes the next piece. Takes no memory.
    pub fn update(&mut self, piece: &[u8])
        ensures { (taken : List ℕ) → HasTaken self.old taken → HasTaken self.new (taken ++ piece.now) }
    {
        self.state.update(piece);
    }

    /// The digest of all pieces joined. Takes no memory.
    pub fn finish(self) -> Digest
        ensures { (taken : List ℕ) → HasTaken self taken → result ≡ sha256 taken }
    {
        Digest::from_bytes(self.state.finalize())
    }
}

/// The SHA-256 value of these bytes. Takes no memory.
pub fn digest_of(bytes: &[u8]) -> Digest
    ensures { result ≡ sha256 bytes.now }
{
    Digest::from_bytes(Sha256::digest(bytes))
}
