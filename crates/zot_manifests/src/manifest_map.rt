//! The manifests of a repository.
ghost use Rattle.std.specs.Prelude.{◌≡◌, ◌↔◌, IfOk, IsTrue, OnErr, OnOk, None, option_copied};
ghost use Rattle.std.specs.FinMap as finite;
ghost use Rattle.zot_digest.specs.ByteMap.{map_of};
ghost use Rattle.zot_manifests.specs.Table.{put_back};

use crate::kept::Kept;
use std::alloc::{AllocError, Global};
use std::collections::BTreeMap;
use std::marker::Model;
use zot_digest::Digest;

/// The manifests of a repository in a tree by their digests. Contracts see the finite map.
#[derive(Drop)]
pub struct ManifestMap {
    tree: BTreeMap<Digest, Kept>,
}

impl Model for ManifestMap {
    ghost use Rattle.zot_digest.specs.ByteMap.{ByteMap, map_of};
    ghost use Rattle.zot_manifests.specs.Codes.{manifests_code};
    ghost use Rattle.zot_manifests.specs.declared.kept.Kept.{Kept};

    ghost Value = { ByteMap Kept };

    ghost coded = { manifests_code };

    ghost view = { λ m. map_of m.tree.entries };
}

impl ManifestMap {
    /// No manifests. Takes no memory.
    pub fn new(alloc: Global) -> Self
        ensures { result ≡ finite.empty }
    {
        ManifestMap {
            tree: BTreeMap::new(alloc),
        }
    }

    /// Whether there are none.
    pub fn is_empty(&self) -> bool
        ensures { IsTrue result ↔ (self.now ≡ finite.empty) }
    {
        self.tree.is_empty()
    }

    /// The manifests in a tree.
    pub fn tree(&self) -> &BTreeMap<Digest, Kept>
        ensures { map_of result.now.entries ≡ self.now }
    {
        &self.tree
    }

    /// The manifest of a digest.
    pub fn get(&self, digest: &Digest) -> Option<&Kept>
        ensures { option_copied result ≡ finite.get self.now digest.now }
    {
        self.tree.get(digest)
    }

    /// Sets the manifest of a digest, and answers the one before. After an `Err`, which comes only where there was none, the manifests are as they were.
    pub fn set(&mut self, digest: Digest, kept: Kept) -> Result<Option<Kept>, AllocError>
        ensures old { IfOk result (λ old. old ≡ finite.get self.old digest) }
        ensures ok { OnOk result (self.new ≡ finite.insert self.old digest kept) }
        ensures err { OnErr result (self.new ≡ self.old) }
        ensures absent { OnErr result (finite.get self.old digest ≡ None) }
    {
        Ok(self.tree.insert(digest, kept)?)
    }

    /// Puts back what was under a digest, where there is a manifest. Takes no memory.
    pub fn put_back(&mut self, digest: Digest, before: Option<Kept>)
        requires { IsTrue (finite.contains_key self.now digest) }
        ensures { self.new ≡ put_back self.old digest before }
    {
        match before {
            Some(kept) => {
                let _ = self.set(digest, kept);
            }
            None => {
                let _ = self.remove(&digest);
            }
        }
    }

    /// Removes the manifest of a digest, and answers it.
    pub fn remove(&mut self, digest: &Digest) -> Option<Kept>
        ensures was { result ≡ finite.get self.old digest.now }
        ensures removed { self.new ≡ finite.remove self.old digest.now }
    {
        self.tree.remove(digest)
    }
}
