//! What a row asks a pool.
ghost use Rattle.std.specs.Prelude.{◌≡◌, IfSome};
ghost use Rattle.zot_contents.specs.Holders.{digest_in};
ghost use Rattle.zot_digest.specs.Digest.{IsDigest};
ghost use Rattle.zot_names.specs.Name.{IsName};
ghost use Rattle.zot_repo.specs.Shards.{Asked, is_for};
ghost use Rattle.zot_row.specs.Turns.{Counts};

use std::alloc::Global;
use zot_contents::{PoolCall, PoolReply};
use zot_names::RepoName;
use zot_outside::Store;
use zot_pool::Pool;

/// Asks a pool for the repository of a name, and counts an answer that a shard failed. The count stands still at the end of 64 bits. What names no digest, or is for another repository, isn't asked, and is answered for want of memory.
pub fn ask<S: Store>(
    failed: &mut u64,
    pool: &mut Pool<S>,
    alloc: Global,
    name: &RepoName,
    asked: PoolCall,
) -> PoolReply
    ensures { Asked name.now pool.old.shards.items failed.old asked result pool.new.shards.items failed.new }
{
    ask_counting(failed, pool, alloc, name, &asked)
}

// The same, of a call that is borrowed.
fn ask_counting<S: Store>(
    failed: &mut u64,
    pool: &mut Pool<S>,
    alloc: Global,
    name: &RepoName,
    asked: &PoolCall,
) -> PoolReply
    ensures { Asked name.now pool.old.shards.items failed.old asked.now result pool.new.shards.items failed.new }
{
    if is_for(name, asked) {
        let answered = pool.call(alloc, asked);
        count(failed, &answered);
        answered
    } else {
        PoolReply::NoMemory
    }
}

// Whether a call on a digest is for the repository of a name.
fn is_for(name: &RepoName, asked: &PoolCall) -> bool
    ensures value { result ≡ is_for name.now asked.now }
    ensures digest { IfSome (digest_in asked.now) IsDigest }
    ensures name { IsName name.now }
{
    // The bytes say that it is a name.
    let _ = name.as_slice();
    match asked {
        PoolCall::Attach(own, digest, _)
        | PoolCall::Mount(own, _, digest)
        | PoolCall::Read(own, digest)
        | PoolCall::Detach(own, digest) => {
            // The bytes say that it is a digest.
            let _ = digest.as_bytes();
            own == name
        }
        PoolCall::Holdings => false,
    }
}

// Counts an answer that a shard failed.
fn count(failed: &mut u64, answered: &PoolReply)
    ensures { Counts answered.now failed.old failed.new }
{
    match answered {
        PoolReply::Failed => *failed = failed.saturating_add(1),
        _ => {}
    }
}
