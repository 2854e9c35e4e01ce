//! Lists that have room.
ghost use Rattle.std.specs.Prelude.{◌≡◌, ◌+◌, ◌<◌, ◌≤◌, ◌∷◌, ◌++◌, [], OnErr, OnOk, vec_len};
ghost use Rattle.std.specs.Vec.{vec_capacity};

use std::alloc::AllocError;

/// Makes room for one item more.
pub fn make_room<T>(items: &mut Vec<T>) -> Result<(), AllocError>
    ensures items { items.new.items ≡ items.old.items }
    ensures kept { vec_capacity items.old ≤ vec_capacity items.new }
    ensures room { OnOk result (vec_capacity items.old + 1 ≤ vec_capacity items.new) }
{
    let spare = items.capacity() - items.len();
    items.reserve_exact(spare + 1)
}

/// Adds an item behind the others. Takes no memory.
pub fn put_last<T: Drop>(items: &mut Vec<T>, item: T)
    requires { vec_len items.old < vec_capacity items.old }
    ensures items { items.new.items ≡ items.old.items ++ (item ∷ []) }
    ensures len { vec_len items.new ≡ vec_len items.old + 1 }
    ensures room { vec_capacity items.old ≤ vec_capacity items.new }
{
    match items.push(item) {
        Ok(()) => {}
        Err(_) => unreachable!(),
    }
}

/// Takes the first item.
pub fn take_first<T>(items: &mut Vec<T>) -> T
    requires { 0 < vec_len items.old }
    ensures { items.old.items ≡ result ∷ items.new.items }
{
    items.remove(0)
}
