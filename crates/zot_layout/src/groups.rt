//! Tags grouped by the digests of their manifests.
ghost use Rattle.std.specs.Prelude.{◌++◌, ◌∷◌, [], List, IfOk, OnOk};
ghost use Rattle.zot_layout.specs.Groups.{AreGroups};
ghost use Rattle.zot_layout.specs.declared.index_tag.IndexTag.{IndexTag};

use crate::index_tag::IndexTag;
use std::alloc::{AllocError, Global};
use std::collections::BTreeMap;
use zot_digest::Digest;

/// These tags by the digests of their manifests, those of a digest in their order. Each tag takes the time of a look-up.
pub fn group_tags<'a>(
    alloc: Global,
    tags: &'a [IndexTag],
) -> Result<BTreeMap<Digest, Vec<&'a IndexTag>>, AllocError>
    ensures { IfOk result (λ groups. AreGroups tags.now groups) }
{
    let mut groups = BTreeMap::new(alloc);
    for tag in tags {
        add_tag(alloc, &mut groups, tag)?;
    }
    Ok(groups)
}

// Adds a tag behind those of its digest.
fn add_tag<'a>(
    alloc: Global,
    groups: &mut BTreeMap<Digest, Vec<&'a IndexTag>>,
    tag: &'a IndexTag,
) -> Result<(), AllocError>
    ensures { OnOk result ((tags : List IndexTag) → AreGroups tags groups.old → AreGroups (tags ++ tag.now ∷ []) groups.new) }
{
    let mut group = match groups.remove(&tag.digest) {
        Some(group) => group,
        None => Vec::new(alloc),
    };
    group.push(tag)?;
    groups.insert(tag.digest, group)?;
    Ok(())
}
