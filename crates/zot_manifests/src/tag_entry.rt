//! What is kept of a tag.
ghost use Rattle.std.specs.Prelude.{◌≡◌};
ghost use Rattle.zot_model.specs.Manifests.{pulled_at};

use std::marker::Model;
use zot_digest::Digest;

/// What is kept of a tag: the digest of its manifest, the moment at which it was pushed, how often it was pulled, and the moment of the last pull, in seconds. Contracts see the plain tag.
#[derive(Drop)]
pub struct TagEntry {
    digest: Digest,
    pushed: u64,
    pulls: u64,
    pulled: u64,
}

impl Model for TagEntry {
    ghost use Rattle.zot_model.specs.State.{StoredTag, tag_code};

    ghost Value = { StoredTag };

    ghost coded = { tag_code };

    ghost view = { λ t. record { digest = t.digest; pushed = t.pushed; pulls = t.pulls; pulled = t.pulled } };
}

impl TagEntry {
    /// A tag that was set to a manifest at the moment, and never pulled.
    pub fn new(digest: Digest, pushed: u64) -> Self
        ensures { result ≡ record { digest = digest; pushed = pushed; pulls = 0; pulled = 0 } }
    {
        TagEntry {
            digest,
            pushed,
            pulls: 0,
            pulled: 0,
        }
    }

    /// The digest of its manifest.
    pub fn digest(&self) -> Digest
        ensures { result ≡ self.now.digest }
    {
        self.digest
    }

    /// The moment at which it was pushed, in seconds.
    pub fn pushed(&self) -> u64
        ensures { result ≡ self.now.pushed }
    {
        self.pushed
    }

    /// A second one that is equal to it.
    pub fn copy(&self) -> TagEntry
        ensures { result ≡ self.now }
    {
        TagEntry {
            digest: self.digest,
            pushed: self.pushed,
            pulls: self.pulls,
            pulled: self.pulled,
        }
    }

    /// Counts a pull at the moment; the count stands still at the greatest number of 64 bits.
    pub fn pull(&mut self, moment: u64)
        ensures { self.new ≡ pulled_at moment self.old }
    {
        self.pulls = self.pulls.saturating_add(1);
        self.pulled = moment;
    }
}
