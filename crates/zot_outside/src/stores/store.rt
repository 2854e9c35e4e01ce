//! Where objects are kept by their paths.
ghost use Rattle.std.specs.Prelude.{◌≡◌, ◌≤◌, IfOk, IsNone, OnErr, OnOk, option_map, string_bytes};
ghost use Rattle.zot_outside.specs.Faults.{HasStoreCause, OnMissing, Rose};
ghost use Rattle.zot_outside.specs.Objects.{Copies, Deletes, Extends, Follows, HasSize, IsMissing, Keeps, Puts, ReadsAt};

use crate::failed::Failed;
use crate::stores::StoreResult;
use std::alloc::Global;

/// A store of objects: bytes under paths, like a folder's files. A path is a text, and paths are ordered by their bytes. A call that answers `Err` changed no object.
pub trait Store {
    ghost use Rattle.std.specs.Prelude.{ℕ, ◌<◌, ◌^◌, IfSome, Option};
    ghost use Rattle.std.specs.FinMap as map;
    ghost use Rattle.zot_outside.specs.Objects.{Objects};

    // The objects by their paths, or none if the store doesn't tell.
    ghost objects: { Self → Option Objects };

    // How many calls have failed. The count stops at 2^64 - 1.
    ghost faults: { Self → ℕ };

    /// How many bytes the object of a path has.
    fn size(&mut self, alloc: Global, path: &str) -> StoreResult<u64>
        ensures cause { HasStoreCause (faults self.old) (faults self.new) result }
        ensures kept { Keeps (objects self.old) (objects self.new) }
        ensures ok { IfOk result (λ n. HasSize (objects self.old) path.now n) }
        ensures missing { OnMissing result (IsMissing (objects self.old) path.now) };

    /// Fills the buffer with the bytes of a path's object from the place `at` on, as far as the object reaches, and answers how many there are. Nothing is said of the rest of the buffer.
    fn read(&mut self, alloc: Global, path: &str, at: u64, buf: &mut [u8]) -> StoreResult<usize>
        ensures cause { HasStoreCause (faults self.old) (faults self.new) result }
        ensures kept { Keeps (objects self.old) (objects self.new) }
        ensures ok { IfOk result (λ n. ReadsAt (objects self.old) path.now at buf.new n) }
        ensures missing { OnMissing result (IsMissing (objects self.old) path.now) };

    /// Sets the object of a path to these bytes.
    fn put(&mut self, alloc: Global, path: &str, bytes: &[u8]) -> StoreResult<()>
        ensures cause { HasStoreCause (faults self.old) (faults self.new) result }
        ensures ok { OnOk result (Puts (objects self.old) path.now bytes.now (objects self.new)) }
        ensures err { OnErr result (Keeps (objects self.old) (objects self.new)) }
        ensures missing { OnMissing result ⊥ };

    /// Adds bytes at the end of a path's object, or makes an object of them if there is none.
    fn append(&mut self, alloc: Global, path: &str, bytes: &[u8]) -> StoreResult<()>
        ensures cause { HasStoreCause (faults self.old) (faults self.new) result }
        ensures ok { OnOk result (Extends (objects self.old) path.now bytes.now (objects self.new)) }
        ensures err { OnErr result (Keeps (objects self.old) (objects self.new)) }
        ensures missing { OnMissing result ⊥ };

    /// Sets the object of the path `to` to the bytes of the object of `from`.
    fn copy(&mut self, alloc: Global, from: &str, to: &str) -> StoreResult<()>
        ensures cause { HasStoreCause (faults self.old) (faults self.new) result }
        ensures ok { OnOk result (Copies (objects self.old) from.now to.now (objects self.new)) }
        ensures err { OnErr result (Keeps (objects self.old) (objects self.new)) }
        ensures missing { OnMissing result (IsMissing (objects self.old) from.now) };

    /// Removes the object of a path.
    fn delete(&mut self, alloc: Global, path: &str) -> StoreResult<()>
        ensures cause { HasStoreCause (faults self.old) (faults self.new) result }
        ensures ok { OnOk result (Deletes (objects self.old) path.now (objects self.new)) }
        ensures err { OnErr result (Keeps (objects self.old) (objects self.new)) }
        ensures missing { OnMissing result (IsMissing (objects self.old) path.now) };

    /// The least path of an object that is greater than the path `after`, or `None` if there is none.
    fn next(&mut self, alloc: Global, after: &str) -> StoreResult<Option<String>>
        ensures cause { HasStoreCause (faults self.old) (faults self.new) result }
        ensures kept { Keeps (objects self.old) (objects self.new) }
        ensures ok { IfOk result (λ found. Follows (objects self.old) after.now (option_map string_bytes found)) }
        ensures missing { OnMissing result ⊥ };

    /// Counts a fault of a store whose answers contradict each other. A store that tells its objects can't be asked for this. Takes no memory.
    fn lost(&mut self) -> Failed
        requires { IsNone (objects self.old) }
        ensures later { faults self.old ≤ faults self.new }
        ensures rose { Rose (faults self.old) (faults self.new) }
        ensures kept { objects self.new ≡ objects self.old };

    // A store that tells its objects has fewer than 2^63.
    ghost limited: { (s : Self) → IfSome (objects s) (λ told. map.len told < 2 ^ 63) };
}
