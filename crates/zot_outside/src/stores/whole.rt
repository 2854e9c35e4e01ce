//! Whole objects of any store.
ghost use Rattle.std.specs.Prelude.{◌≡◌, ◌+◌, ◌<◌, ◌≤◌, ◌↔◌, ℕ, IfOk, IsNone, IsTrue, OnOk, drop, length, take};
ghost use Rattle.zot_outside.specs.Faults.{HasStoreCause, OnMissing};
ghost use Rattle.zot_outside.specs.Objects.{IsMissing, Keeps};
ghost use Rattle.zot_outside.specs.Whole.{HasObject, Reaches};
ghost use Rattle.zot_outside.specs.declared.stores.store_error.StoreError.TheVariants as errors;

use crate::stores::{Store, StoreError, StoreResult};
use std::alloc::Global;

/// How many bytes of an object are compared at a time.
const PIECE: usize = 65_536;

/// The bytes of a path's object. A store whose answers contradict each other has failed.
pub fn read_whole<S: Store>(store: &mut S, alloc: Global, path: &str) -> StoreResult<Vec<u8>>
    ensures cause { HasStoreCause (S.faults store.old) (S.faults store.new) result }
    ensures kept { Keeps (S.objects store.old) (S.objects store.new) }
    ensures ok { IfOk result (λ bytes. HasObject (S.objects store.old) path.now (λ object. bytes.items ≡ object)) }
    ensures missing { OnMissing result (IsMissing (S.objects store.old) path.now) }
{
    let size = store.size(alloc, path)?;
    let mut bytes = vec![in alloc; 0; size as usize]?;
    fill_from(store, alloc, path, 0, bytes.as_mut_slice())?;
    Ok(bytes)
}

// Fills a buffer from a place of an object on, which reaches as far.
fn fill_from<S: Store>(
    store: &mut S,
    alloc: Global,
    path: &str,
    at: u64,
    buf: &mut [u8],
) -> StoreResult<()>
    requires { Reaches (S.objects store.old) path.now (at + length buf.old) }
    ensures cause { HasStoreCause (S.faults store.old) (S.faults store.new) result }
    ensures kept { Keeps (S.objects store.old) (S.objects store.new) }
    ensures room { length buf.new ≡ length buf.old }
    ensures ok { OnOk result (HasObject (S.objects store.old) path.now (λ object. buf.new ≡ take (length buf.old) (drop at object))) }
    ensures missing { OnMissing result ⊥ }
{
    match store.read(alloc, path, at, buf) {
        Ok(n) if n == buf.len() => Ok(()),
        Ok(_) | Err(StoreError::Missing) => Err(contradicted(store)),
        Err(error) => Err(error),
    }
}

/// What a call answers over a store whose answers contradict each other.
pub fn contradicted<S: Store>(store: &mut S) -> StoreError
    requires { IsNone (S.objects store.old) }
    ensures cause { HasStoreCause {T = ℕ} (S.faults store.old) (S.faults store.new) (Err result) }
    ensures answer { result ≡ errors.Failed }
    ensures kept { Keeps (S.objects store.old) (S.objects store.new) }
{
    let _ = store.lost();
    StoreError::Failed
}

/// Whether a path's object has exactly these bytes. It is read in pieces of at most 65,536 bytes, up to the first that differs. A store whose answers contradict each other has failed.
pub fn has_bytes<S: Store>(
    store: &mut S,
    alloc: Global,
    path: &str,
    bytes: &[u8],
) -> StoreResult<bool>
    ensures cause { HasStoreCause (S.faults store.old) (S.faults store.new) result }
    ensures kept { Keeps (S.objects store.old) (S.objects store.new) }
    ensures ok { IfOk result (λ same. HasObject (S.objects store.old) path.now (λ object. IsTrue same ↔ (object ≡ bytes.now))) }
    ensures missing { OnMissing result (IsMissing (S.objects store.old) path.now) }
{
    if store.size(alloc, path)? != bytes.len() as u64 {
        return Ok(false);
    }
    let mut buf = vec![in alloc; 0; bytes.len().min(PIECE)]?;
    compare(store, alloc, path, bytes, buf.as_mut_slice())
}

// Whether a path's object, which is as long as these bytes, has exactly them. It is read into a buffer, which has room where there are bytes.
fn compare<S: Store>(
    store: &mut S,
    alloc: Global,
    path: &str,
    bytes: &[u8],
    buf: &mut [u8],
) -> StoreResult<bool>
    requires size { HasObject (S.objects store.old) path.now (λ object. length object ≡ length bytes.now) }
    requires room { 0 < length bytes.now → 0 < length buf.old }
    ensures cause { HasStoreCause (S.faults store.old) (S.faults store.new) result }
    ensures kept { Keeps (S.objects store.old) (S.objects store.new) }
    ensures ok { IfOk result (λ same. HasObject (S.objects store.old) path.now (λ object. IsTrue same ↔ (object ≡ bytes.now))) }
    ensures missing { OnMissing result ⊥ }
{
    let mut at = 0;
    while at < bytes.len() {
        let n = buf.len().min(bytes.len() - at);
        if !has_piece(store, alloc, path, at, &bytes[at..at + n], buf)? {
            return Ok(false);
        }
        at += n;
    }
    Ok(true)
}

// Whether a path's object, which reaches as far, has these bytes from a place on. It is read into a buffer, which has room for them.
fn has_piece<S: Store>(
    store: &mut S,
    alloc: Global,
    path: &str,
    at: usize,
    piece: &[u8],
    buf: &mut [u8],
) -> StoreResult<bool>
    requires reach { Reaches (S.objects store.old) path.now (at + length piece.now) }
    requires room { length piece.now ≤ length buf.old }
    ensures cause { HasStoreCause (S.faults store.old) (S.faults store.new) result }
    ensures kept { Keeps (S.objects store.old) (S.objects store.new) }
    ensures room { length buf.new ≡ length buf.old }
    ensures ok { IfOk result (λ same. HasObject (S.objects store.old) path.now (λ object. IsTrue same ↔ (take (length piece.now) (drop at object) ≡ piece.now))) }
    ensures missing { OnMissing result ⊥ }
{
    let room = &mut buf[..piece.len()];
    fill_from(store, alloc, path, at as u64, room)?;
    Ok(is_same(room, piece))
}

fn is_same(one: &[u8], other: &[u8]) -> bool
    ensures { IsTrue result ↔ (one.now ≡ other.now) }
{
    one == other
}
