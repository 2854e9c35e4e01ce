//! The orders of writes that change what one repository holds under a digest. Each has one call that decides: a refusal before it leaves all that is held, and one behind it leaves a stale line or bytes that nobody reads.
ghost use Rattle.std.specs.Prelude.{◌≡◌, ◌≤◌, ℕ, List, None, Some, IfSome, IsSome, OnErr, OnOk, option_copied, ⊤};
ghost use Rattle.std.specs.FinMap as map;
ghost use Rattle.zot_outside.specs.Faults.{HasStoreCause, OnMissing};
ghost use Rattle.zot_outside.specs.Objects.{Told};
ghost use Rattle.zot_links.specs.Changes.{HasCallsCause, Keeps, Sets};
ghost use Rattle.zot_links.specs.Holding.{Prepares};
ghost use Rattle.zot_links.specs.Meaning.{IsFree, IsLink, IsWhole, Stands, object_at};
ghost use Rattle.zot_links.specs.Orders.{Begins, MayRelink, bytes_by, fresh_whole};

use crate::links::Links;
use crate::part::{copy_object, delete_object, put_object, put_record, replace_record};
use std::alloc::Global;
use zot_digest::Digest;
use zot_names::RepoName;
use zot_outside::{Store, StoreResult};

/// Makes a repository a holder: a whole one of these bytes, or a link to a whole holder with an object of these, which nobody reads. The put of the object decides.
pub fn add<S: Store>(
    part: &mut S,
    alloc: Global,
    digest: &Digest,
    links: &mut Links,
    name: &RepoName,
    origin: Option<&RepoName>,
    bytes: &[u8],
) -> StoreResult<()>
    ensures cause { HasStoreCause (S.faults part.old) (S.faults part.new) result }
    ensures ok { OnOk result (Told (S.objects part.old) (S.objects part.new) (λ old new. Stands old digest.now links.old → map.get links.old name.now ≡ None → IfSome (option_copied origin.entry) (IsWhole links.old)
        → Sets (fresh_whole (option_copied origin.entry) old digest.now links.old bytes.now) old digest.now links.old name.now
        (bytes_by old digest.now (option_copied origin.entry) bytes.now) new links.new)) }
    ensures err { OnErr result (Told (S.objects part.old) (S.objects part.new) (λ old new. Stands old digest.now links.old → map.get links.old name.now ≡ None → Keeps old digest.now links.old new links.new)) }
    ensures missing { OnMissing result ⊥ }
    ensures links { OnOk result (links.new ≡ map.insert links.old name.now (option_copied origin.entry)) }
{
    let wanted = links.with(alloc, name, origin)?;
    put_record(part, alloc, digest, &wanted)?;
    put_object(part, alloc, digest, name, bytes)?;
    *links = wanted;
    Ok(())
}

/// Makes a holder that no link needs a link to another whole one, or a whole one of its object. The put of the record decides.
pub fn relink<S: Store>(
    part: &mut S,
    alloc: Global,
    digest: &Digest,
    links: &mut Links,
    name: &RepoName,
    origin: Option<&RepoName>,
) -> StoreResult<()>
    ensures cause { HasStoreCause (S.faults part.old) (S.faults part.new) result }
    ensures ok { OnOk result (Told (S.objects part.old) (S.objects part.new) (λ old new. (bytes : List ℕ) → Stands old digest.now links.old → MayRelink links.old name.now (option_copied origin.entry)
        → Begins old digest.now name.now (option_copied origin.entry) bytes
        → Sets (fresh_whole (option_copied origin.entry) old digest.now links.old bytes) old digest.now links.old name.now (Some bytes) new links.new)) }
    ensures err { OnErr result (Told (S.objects part.old) (S.objects part.new) (λ old new. Stands old digest.now links.old → Keeps old digest.now links.old new links.new)) }
    ensures links { OnOk result (links.new ≡ map.insert links.old name.now (option_copied origin.entry)) }
    ensures missing { OnMissing result ⊥ }
{
    let wanted = links.with(alloc, name, origin)?;
    put_record(part, alloc, digest, &wanted)?;
    *links = wanted;
    Ok(())
}

/// Makes a link whole, its origin a link to it, and the origin's other links links to it. Nothing decides: all is held as before.
pub fn promote<S: Store>(
    part: &mut S,
    alloc: Global,
    digest: &Digest,
    links: &mut Links,
    name: &RepoName,
    least: &RepoName,
) -> StoreResult<()>
    requires { IfSome (S.objects part.old) (λ told. IsSome (object_at told digest.now name.now)) }
    ensures cause { HasStoreCause (S.faults part.old) (S.faults part.new) result }
    ensures kept { Told (S.objects part.old) (S.objects part.new) (λ old new. Stands old digest.now links.old → IsWhole links.old name.now → IsLink links.old least.now name.now
        → Keeps old digest.now links.old new links.new) }
    ensures prepares { OnOk result (Told (S.objects part.old) (S.objects part.new) (λ old new. Stands old digest.now links.old → IsWhole links.old name.now → IsLink links.old least.now name.now
        → Prepares old digest.now links.old name.now new links.new)) }
    ensures missing { OnMissing result ⊥ }
{
    let promoted = links.promoted(alloc, name, least)?;
    copy_object(part, alloc, digest, name, least)?;
    replace_record(part, alloc, digest, &promoted)?;
    *links = promoted;
    Ok(())
}

/// Removes a holder that no link needs. The deletion of its object decides; a record that isn't put after it has a stale line.
pub fn remove<S: Store>(
    part: &mut S,
    alloc: Global,
    digest: &Digest,
    links: &mut Links,
    name: &RepoName,
) -> StoreResult<()>
    ensures cause { HasCallsCause (S.faults part.old) (S.faults part.new) result }
    ensures ok { OnOk result (Told (S.objects part.old) (S.objects part.new) (λ old new. Stands old digest.now links.old → IsFree links.old name.now → Sets ⊤ old digest.now links.old name.now None new links.new)) }
    ensures err { OnErr result (Told (S.objects part.old) (S.objects part.new) (λ old new. Stands old digest.now links.old → Keeps old digest.now links.old new links.new)) }
    ensures missing { OnMissing result ⊥ }
{
    let left = links.without(alloc, name)?;
    delete_object(part, alloc, digest, name)?;
    *links = left;
    tidy_record(part, alloc, digest, links);
    Ok(())
}

// Sets the record, where that succeeds. Nothing is held otherwise after it.
fn tidy_record<S: Store>(part: &mut S, alloc: Global, digest: &Digest, links: &Links)
    ensures later { S.faults part.old ≤ S.faults part.new }
    ensures kept { Told (S.objects part.old) (S.objects part.new) (λ old new. Stands old digest.now links.now → Keeps old digest.now links.now new links.now) }
{
    let _ = put_record(part, alloc, digest, links);
}
