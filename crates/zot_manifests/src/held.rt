//! The blobs of a repository, by their sizes.
ghost use Rattle.std.specs.Prelude.{◌≡◌, ℕ, List, Option};

use zot_digest::Digest;

/// The blobs of a repository. Contracts see the size of each.
pub trait Held {
    /// How many bytes the blob of a digest has, where there is one.
    ghost sizes: { Self → List ℕ → Option ℕ };

    /// How many bytes the blob of a digest has, where there is one. Takes no memory.
    fn size(&self, digest: &Digest) -> Option<u64>
        ensures { result ≡ sizes self.now digest.now };
}
