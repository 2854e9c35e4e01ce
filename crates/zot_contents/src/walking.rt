//! The digests of a shard in a store, by the paths of their objects.
ghost use Rattle.std.specs.Prelude.{◌≡◌, IfOk, IfSome, OnOk};
ghost use Rattle.zot_outside.specs.Faults.{HasStoreCause, OnMissing};
ghost use Rattle.zot_contents.specs.Opening.{AreFound, noted};
ghost use Rattle.zot_contents.specs.Shards.{AllOwn};

use crate::digests::Digests;
use crate::places::{Place, place_of};
use crate::sharding::shard_of;
use std::alloc::{AllocError, Global};
use zot_outside::{PathWalk, Store, StoreError, StoreResult};

/// The digests of a shard that have objects in a store: a record, or objects of repositories, which are noted as whole holders. The store is asked for its paths once, one after another, and no object is read.
pub fn find_digests<S: Store>(part: &mut S, alloc: Global, number: u32) -> StoreResult<Digests>
    ensures cause { HasStoreCause (S.faults part.old) (S.faults part.new) result }
    ensures kept { S.objects part.new ≡ S.objects part.old }
    ensures own { IfOk result (AllOwn number) }
    ensures found { IfOk result (λ found. IfSome (S.objects part.old) (λ told. AreFound told number found)) }
    ensures missing { OnMissing result ⊥ }
{
    let mut walk = PathWalk::over(part, alloc);
    let mut found = Digests::new(alloc);
    for _ in 0..u64::MAX {
        let Some(path) = walk.next(part, alloc)? else {
            return Ok(found);
        };
        let place = place_of(alloc, path.as_str())?;
        note(&mut found, alloc, number, place)?;
    }
    let _ = part.lost();
    Err(StoreError::Failed)
}

// Notes an object, if it is of a digest of the shard.
fn note(
    found: &mut Digests,
    alloc: Global,
    number: u32,
    place: Option<Place>,
) -> Result<(), AllocError>
    ensures { OnOk result (found.new ≡ noted number found.old place) }
{
    match place {
        Some(place) if shard_of(&place.digest) == number => {
            found.note(alloc, place.digest, place.name)
        }
        _ => Ok(()),
    }
}
