//! A walk through the paths of any store.
ghost use Rattle.std.specs.Prelude.{◌≡◌, ◌≢◌, ◌↔◌, [], IfOk, IfSome, IsTrue, OnOk, Option, option_map, string_bytes};
ghost use Rattle.std.specs.declared.cmp.Ordering.TheVariants.{Less};
ghost use Rattle.zot_outside.specs.Faults.{HasStoreCause, OnMissing};
ghost use Rattle.zot_outside.specs.Objects.{Follows, Keeps, Objects, path_cmp};
ghost use Rattle.zot_outside.specs.PathWalks.{HasRoom, last_path};

use crate::stores::whole::contradicted;
use crate::stores::{Store, StoreResult};
use std::alloc::{AllocError, Global};

/// How often a walk asks for the next path: no store that tells its objects has as many.
const LIMIT: u64 = 1 << 63;

/// A walk through the paths of a store, in their order. It asks the store for the next path at most 2^63 times.
#[derive(Drop)]
pub struct PathWalk {
    last: String,
    asked: u64,
}

impl PathWalk {
    /// A walk from the first path of a store on. Takes no memory.
    pub fn over<S: Store>(_store: &S, alloc: Global) -> Self
        ensures last { last_path result ≡ [] }
        ensures room { HasRoom (S.objects _store.now) result }
    {
        PathWalk {
            last: String::new(alloc),
            asked: 0,
        }
    }

    /// Passes over the paths up to this one, and this one. A walk that is there already stays.
    pub fn skip_to(&mut self, alloc: Global, path: &str) -> Result<(), AllocError>
        ensures skipped { OnOk result (path_cmp (last_path self.old) path.now ≡ Less → last_path self.new ≡ path.now) }
        ensures stays { OnOk result (path_cmp (last_path self.old) path.now ≢ Less → self.new ≡ self.old) }
        ensures room { (objects : Option Objects) → HasRoom objects self.old → HasRoom objects self.new }
    {
        if is_less(self.last.as_str(), path) {
            self.last = String::from_str(alloc, path)?;
        }
        Ok(())
    }

    /// The next path, or `None` after the last one. A store that answers a path which isn't greater, or that was asked 2^63 times, contradicts itself and has failed.
    pub fn next<S: Store>(&mut self, store: &mut S, alloc: Global) -> StoreResult<Option<String>>
        requires { HasRoom (S.objects store.old) self.old }
        ensures cause { HasStoreCause (S.faults store.old) (S.faults store.new) result }
        ensures kept { Keeps (S.objects store.old) (S.objects store.new) }
        ensures ok { IfOk result (λ found. Follows (S.objects store.old) (last_path self.old) (option_map string_bytes found)) }
        ensures above { IfOk result (λ found. IfSome found (λ path. path_cmp (last_path self.old) (string_bytes path) ≡ Less)) }
        ensures last { IfOk result (λ found. IfSome found (λ path. last_path self.new ≡ string_bytes path)) }
        ensures room { IfOk result (λ found. IfSome found (λ _. HasRoom (S.objects store.new) self.new)) }
        ensures missing { OnMissing result ⊥ }
    {
        if self.asked >= LIMIT {
            return Err(contradicted(store));
        }
        let found = store.next(alloc, self.last.as_str())?;
        self.asked += 1;
        match found {
            Some(path) if is_less(self.last.as_str(), path.as_str()) => {
                self.last = String::from_str(alloc, path.as_str())?;
                Ok(Some(path))
            }
            Some(_) => Err(contradicted(store)),
            None => Ok(None),
        }
    }
}

// Whether a path is less than another.
fn is_less(path: &str, other: &str) -> bool
    ensures { IsTrue result ↔ (path_cmp path.now other.now ≡ Less) }
{
    path < other
}
