//! A plain pool in memory.
use std::alloc::{AllocError, Global};
use std::collections::BTreeMap;
use zot_contents::{Holding, PoolCall, PoolReply};
use zot_digest::{Bytes, Digest, Words, digest_of};
use zot_names::RepoName;

/// A plain pool: the bytes that repositories hold under digests, each under the text of the digest and the repository's name.
#[derive(Drop)]
pub struct PlainPool {
    tree: BTreeMap<Words, Bytes>,
}

impl PlainPool {
    /// A pool that holds nothing.
    pub fn new(alloc: Global) -> PlainPool {
        PlainPool {
            tree: BTreeMap::new(alloc),
        }
    }

    /// Makes a call and gives its answer. All that is held is compared by `is_list`, and answered `Nothing` here.
    pub fn answer(&mut self, alloc: Global, call: &PoolCall) -> Result<PoolReply, AllocError> {
        match call {
            PoolCall::Holdings => Ok(PoolReply::Nothing),
            PoolCall::Attach(name, digest, bytes) => {
                self.tree
                    .insert(place(alloc, digest, name)?, bytes.copy(alloc)?)?;
                Ok(PoolReply::Done)
            }
            PoolCall::Mount(name, from, digest) => self.mount(alloc, name, from, digest),
            PoolCall::Read(name, digest) => match self.tree.get(&place(alloc, digest, name)?) {
                Some(bytes) => Ok(PoolReply::Content(bytes.copy(alloc)?)),
                None => Ok(PoolReply::Nothing),
            },
            PoolCall::Detach(name, digest) => {
                let was = self.tree.remove(&place(alloc, digest, name)?).is_some();
                Ok(PoolReply::Removed(was))
            }
        }
    }

    // A repository is to hold the sound bytes of another one.
    fn mount(
        &mut self,
        alloc: Global,
        name: &RepoName,
        from: &RepoName,
        digest: &Digest,
    ) -> Result<PoolReply, AllocError> {
        let Some(bytes) = self.tree.get(&place(alloc, digest, from)?) else {
            return Ok(PoolReply::Nothing);
        };
        if digest_of(bytes.as_slice()) != *digest {
            return Ok(PoolReply::Nothing);
        }
        let size = bytes.as_slice().len() as u64;
        let copy = bytes.copy(alloc)?;
        self.tree.insert(place(alloc, digest, name)?, copy)?;
        Ok(PoolReply::Size(size))
    }

    /// Whether a list has all that is held, in order.
    pub fn is_list(&self, alloc: Global, list: &[Holding]) -> Result<bool, AllocError> {
        if list.len() != self.tree.len() {
            return Ok(false);
        }
        for ((place_held, bytes), holding) in self.tree.iter().zip(list) {
            let listed = place(alloc, &holding.digest, &holding.name)?;
            if listed != *place_held || holding.size != bytes.as_slice().len() as u64 {
                return Ok(false);
            }
        }
        Ok(true)
    }
}

// The text of a digest and a repository's name.
fn place(alloc: Global, digest: &Digest, name: &RepoName) -> Result<Words, AllocError> {
    let mut place = digest.text(alloc)?;
    place.push_str(" ")?;
    place.push_str(name.as_str())?;
    Ok(Words::new(place))
}
