//! The shard of a digest.
ghost use Rattle.std.specs.Prelude.{◌≡◌};
ghost use Rattle.zot_contents.specs.Shards.{IsOfShard, shard_of};

use zot_digest::Digest;

/// How many shards of digests there are.
pub const SHARDS: u32 = 16;

/// The shard of a digest: its first byte, modulo the number of shards. A rule of this project.
pub fn shard_of(digest: &Digest) -> u32
    ensures value { result ≡ shard_of digest.now }
    ensures digest { IsOfShard result digest.now }
{
    digest.as_bytes()[0] as u32 % SHARDS
}
