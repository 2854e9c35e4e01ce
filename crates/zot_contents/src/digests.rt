//! What a shard keeps of its digests in memory.
ghost use Rattle.std.specs.Prelude.{◌≡◌, ◌≢◌, List, ℕ, true, IfOk, IfSome, IsSome, OnErr, OnOk, Some, option_copied, option_map};
ghost use Rattle.std.specs.FinMap as map;
ghost use Rattle.zot_digest.specs.ByteMap.{map_of};
ghost use Rattle.zot_outside.specs.Faults.{HasStoreCause, OnMissing};
ghost use Rattle.zot_links.specs.Aims.{IsAimed};
ghost use Rattle.zot_outside.specs.Objects.{Told};
ghost use Rattle.zot_links.specs.Changes.{HasCallsCause, Keeps, Sets};
ghost use Rattle.zot_links.specs.Holding.{Releases};
ghost use Rattle.zot_links.specs.Meaning.{held};
ghost use Rattle.zot_contents.specs.Opening.{with_holder};
ghost use Rattle.zot_contents.specs.Shards.{KeepsOnly, StandsAt, links_at};

use std::alloc::{AllocError, Global};
use std::collections::BTreeMap;
use std::marker::Model;
use zot_digest::Digest;
use zot_links::{Links, attach, contents, release};
use zot_names::RepoName;
use zot_outside::{Store, StoreResult};

/// The holders of digests, each with its place among the whole objects and links. Contracts see the finite map.
#[derive(Drop)]
pub struct Digests {
    tree: BTreeMap<Digest, Links>,
}

impl Model for Digests {
    ghost use Rattle.zot_digest.specs.ByteMap.{map_of};
    ghost use Rattle.zot_contents.specs.Shards.{Kept, kept_code};

    ghost Value = { Kept };

    ghost coded = { kept_code };

    ghost view = { λ d. map_of d.tree.entries };
}

impl Digests {
    /// No digests. Takes no memory.
    pub fn new(alloc: Global) -> Self
        ensures { result ≡ map.empty }
    {
        Digests {
            tree: BTreeMap::new(alloc),
        }
    }

    /// The digests in a tree, each with its holders.
    pub fn tree(&self) -> &BTreeMap<Digest, Links>
        ensures { map_of result.now.entries ≡ self.now }
    {
        &self.tree
    }

    /// The holders of a digest, if it is kept.
    pub fn get(&self, digest: &Digest) -> Option<&Links>
        ensures { option_copied result ≡ map.get self.now digest.now }
    {
        self.tree.get(digest)
    }

    /// Sets the holders of a digest. After an `Err` all are as they were.
    pub fn set(&mut self, digest: Digest, links: Links) -> Result<(), AllocError>
        ensures ok { OnOk result (self.new ≡ map.insert self.old digest links) }
        ensures err { OnErr result (self.new ≡ self.old) }
    {
        self.tree.insert(digest, links)?;
        Ok(())
    }

    /// Keeps a digest, with no holders where it isn't kept yet.
    pub fn keep(&mut self, alloc: Global, digest: &Digest) -> Result<(), AllocError>
        ensures kept { OnOk result (IsSome (map.get self.new digest.now)) }
        ensures same { (other : List ℕ) → links_at self.new other ≡ links_at self.old other }
        ensures only { KeepsOnly self.old digest.now self.new }
    {
        if self.get(digest).is_some() {
            return Ok(());
        }
        self.set(*digest, Links::new(alloc))
    }

    /// Keeps a digest, with one more holder that is whole, where one is named.
    pub fn note(
        &mut self,
        alloc: Global,
        digest: Digest,
        name: Option<RepoName>,
    ) -> Result<(), AllocError>
        ensures { OnOk result (self.new ≡ map.insert self.old digest (with_holder (links_at self.old digest) name)) }
    {
        match self.tree.get_mut(&digest) {
            Some(links) => add(links, name),
            None => {
                let mut links = Links::new(alloc);
                add(&mut links, name)?;
                self.set(digest, links)
            }
        }
    }

    /// Lets a digest go that has no holders.
    pub fn tidy(&mut self, digest: &Digest)
        ensures same { (other : List ℕ) → links_at self.new other ≡ links_at self.old other }
        ensures only { KeepsOnly self.old digest.now self.new }
    {
        match self.get(digest) {
            Some(links) if links.is_empty() => self.remove(digest),
            _ => {}
        }
    }

    // Lets a digest go.
    fn remove(&mut self, digest: &Digest)
        ensures { self.new ≡ map.remove self.old digest.now }
    {
        let _ = self.tree.remove(digest);
    }

    /// Sets what a repository holds under a digest that is kept, by `attach` of `zot_links`.
    pub fn attach<S: Store>(
        &mut self,
        part: &mut S,
        alloc: Global,
        digest: &Digest,
        dedupe: bool,
        name: &RepoName,
        bytes: &[u8],
    ) -> StoreResult<()>
        requires kept { IsSome (map.get self.old digest.now) }
        requires stands { StandsAt (S.objects part.old) self.old digest.now }
        ensures cause { HasCallsCause (S.faults part.old) (S.faults part.new) result }
        ensures ok { OnOk result (Told (S.objects part.old) (S.objects part.new) (λ old new.
            Sets (dedupe ≡ true) old digest.now (links_at self.old digest.now) name.now (Some bytes.now) new (links_at self.new digest.now))) }
        ensures err { OnErr result (Told (S.objects part.old) (S.objects part.new) (λ old new.
            Keeps old digest.now (links_at self.old digest.now) new (links_at self.new digest.now))) }
        ensures missing { OnMissing result ⊥ }
        ensures form { OnOk result (IfSome (S.objects part.old) (λ told. IsAimed dedupe told digest.now (links_at self.old digest.now) name.now bytes.now (links_at self.new digest.now))) }
        ensures beside { (other : List ℕ) → other ≢ digest.now → links_at self.new other ≡ links_at self.old other }
        ensures only { KeepsOnly self.old digest.now self.new }
    {
        match self.tree.get_mut(digest) {
            Some(links) => attach(part, alloc, digest, links, dedupe, name, bytes),
            None => unreachable!(),
        }
    }

    /// Removes what a repository holds under a digest that is kept, by `release` of `zot_links`.
    pub fn release<S: Store>(
        &mut self,
        part: &mut S,
        alloc: Global,
        digest: &Digest,
        name: &RepoName,
    ) -> StoreResult<bool>
        requires kept { IsSome (map.get self.old digest.now) }
        requires stands { StandsAt (S.objects part.old) self.old digest.now }
        ensures cause { HasCallsCause (S.faults part.old) (S.faults part.new) result }
        ensures ok { IfOk result (λ was. Told (S.objects part.old) (S.objects part.new) (λ old new.
            Releases was old digest.now (links_at self.old digest.now) name.now new (links_at self.new digest.now))) }
        ensures err { OnErr result (Told (S.objects part.old) (S.objects part.new) (λ old new.
            Keeps old digest.now (links_at self.old digest.now) new (links_at self.new digest.now))) }
        ensures missing { OnMissing result ⊥ }
        ensures beside { (other : List ℕ) → other ≢ digest.now → links_at self.new other ≡ links_at self.old other }
        ensures only { KeepsOnly self.old digest.now self.new }
    {
        match self.tree.get_mut(digest) {
            Some(links) => release(part, alloc, digest, links, name),
            None => unreachable!(),
        }
    }

    /// The bytes that a repository holds under a digest, by `contents` of `zot_links`.
    pub fn contents<S: Store>(
        &self,
        part: &mut S,
        alloc: Global,
        digest: &Digest,
        name: &RepoName,
    ) -> StoreResult<Option<Vec<u8>>>
        requires { StandsAt (S.objects part.old) self.now digest.now }
        ensures cause { HasStoreCause (S.faults part.old) (S.faults part.new) result }
        ensures kept { S.objects part.new ≡ S.objects part.old }
        ensures ok { IfOk result (λ found. IfSome (S.objects part.old) (λ told. option_map (λ v. v.items) found ≡ held told digest.now name.now)) }
        ensures missing { OnMissing result ⊥ }
    {
        let none = Links::new(alloc);
        let links = self.get(digest).unwrap_or(&none);
        contents(part, alloc, digest, links, name)
    }
}

// Adds a holder that is whole, where one is named.
fn add(links: &mut Links, name: Option<RepoName>) -> Result<(), AllocError>
    ensures { OnOk result (links.new ≡ with_holder links.old name) }
{
    match name {
        Some(name) => links.set(name, None),
        None => Ok(()),
    }
}
