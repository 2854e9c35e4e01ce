//! The owner and the row of a name.
ghost use Rattle.std.specs.Prelude.{◌≡◌, ◌≤◌, ◌<◌, ◌*◌, ◌/◌, ℕ};
ghost use Rattle.zot_siphash.specs.Owners.{AreMembers, owner, row};
ghost use Rattle.zot_siphash.specs.SipHash.{siphash};

use crate::hash::siphash24;

/// The member, below `members`, that owns a hash.
pub fn owner_of_hash(hash: u64, members: u32) -> u32
    requires { AreMembers members }
    ensures { result ≡ owner hash members }
{
    (hash % members as u64) as u32
}

/// The row of a hash: there are eight a member, and they stand in the order of the members.
pub fn row_of_hash(hash: u64, members: u32) -> u32
    requires { AreMembers members }
    ensures { result ≡ row hash members }
{
    owner_of_hash(hash, members) * 8 + (hash / members as u64 % 8) as u32
}

/// The member that owns the repository of this name.
pub fn owner_of(key: &[u8; 16], name: &[u8], members: u32) -> u32
    requires { AreMembers members }
    ensures { result ≡ owner (siphash key.now name.now) members }
{
    owner_of_hash(siphash24(key, name), members)
}

/// The row of the repository of this name.
pub fn row_of(key: &[u8; 16], name: &[u8], members: u32) -> u32
    requires { AreMembers members }
    ensures { result ≡ row (siphash key.now name.now) members }
{
    row_of_hash(siphash24(key, name), members)
}

/// The law that an owner is one of the members, that a row is one of theirs, and that a row's owner is the hash's.
pub fn owners_and_rows()
    ensures owners { (hash members : ℕ) → 1 ≤ members → owner hash members < members }
    ensures rows { (hash members : ℕ) → 1 ≤ members → row hash members < 8 * members }
    ensures owned { (hash members : ℕ) → 1 ≤ members → row hash members / 8 ≡ owner hash members }
{}
