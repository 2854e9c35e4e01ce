//! The list of a digest's referrers by a look at all manifests.
ghost use Rattle.std.specs.Prelude.{◌≡◌, IfOk, map, option_map, string_bytes};
ghost use Rattle.serde_json.specs.View.{view};
ghost use Rattle.zot_media.specs.Referrers.{descriptor_value, referrers_among, referrers_text};
ghost use Rattle.zot_referrers.specs.Listing.{all_pushed};

use crate::subject_index::add_listed;
use crate::text::listing_text;
use serde_json::Value;
use std::alloc::{AllocError, Global};
use zot_digest::Digest;
use zot_manifests::{Held, Manifests};

/// The text that `SubjectIndex::text` gives, by a look at all manifests, where they aren't listed under their subjects. It fails only where memory runs out.
pub fn text_of_all<H: Held>(
    alloc: Global,
    manifests: &Manifests,
    held: &H,
    subject: &Digest,
    wanted: Option<&str>,
) -> Result<String, AllocError>
    ensures { IfOk result (λ text. string_bytes text
        ≡ referrers_text (all_pushed (H.sizes held.now) manifests.now.manifests) subject.now (option_map (λ text. text.now) wanted.entry)) }
{
    let descriptors = descriptors_of_all(alloc, manifests, held, subject, wanted)?;
    listing_text(alloc, descriptors)
}

// The descriptors in that list.
fn descriptors_of_all<H: Held>(
    alloc: Global,
    manifests: &Manifests,
    held: &H,
    subject: &Digest,
    wanted: Option<&str>,
) -> Result<Vec<Value>, AllocError>
    ensures { IfOk result (λ descriptors. map view descriptors.items
        ≡ map descriptor_value (referrers_among (all_pushed (H.sizes held.now) manifests.now.manifests) subject.now (option_map (λ text. text.now) wanted.entry))) }
{
    let mut descriptors = Vec::new(alloc);
    for (digest, kept) in manifests.manifests().iter() {
        add_listed(alloc, &mut descriptors, held, digest, kept, subject, wanted)?;
    }
    Ok(descriptors)
}
