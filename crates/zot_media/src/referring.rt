//! What descriptors refer to.
ghost use Rattle.std.specs.Prelude.{◌≡◌, ◌++◌, IfOk, map, not, option_map};
ghost use Rattle.std.specs.List.{filter};
ghost use Rattle.zot_media.specs.References.{config_media, has_digest, needed_of, own_type};

use crate::descriptor::Descriptor;
use std::alloc::{AllocError, Global};
use zot_digest::{Digest, Words};

/// The digests of the first descriptor, which is the config, and of those after it that aren't external.
pub fn needed_digests(alloc: Global, references: &[Descriptor]) -> Result<Vec<Digest>, AllocError>
    ensures { IfOk result (λ digests. digests.items ≡ map (λ descriptor. descriptor.digest) (needed_of references.now)) }
{
    let mut digests = Vec::new(alloc);
    if let Some((config, layers)) = references.split_first() {
        digests.push(config.digest)?;
        push_needed(&mut digests, layers)?;
    }
    Ok(digests)
}

// The digests of the layers that aren't external are put after those that are there.
fn push_needed(digests: &mut Vec<Digest>, layers: &[Descriptor]) -> Result<(), AllocError>
    ensures { IfOk result (λ _. digests.new.items ≡ digests.old.items ++ map (λ descriptor. descriptor.digest) (filter (λ layer. not layer.external) layers.now)) }
{
    for layer in layers {
        if !layer.external {
            digests.push(layer.digest)?;
        }
    }
    Ok(())
}

/// Whether a descriptor has that digest.
pub fn has_digest(descriptors: &[Descriptor], digest: &Digest) -> bool
    ensures { result ≡ has_digest digest.now descriptors.now }
{
    descriptors
        .iter()
        .any(|descriptor| descriptor.digest == *digest)
}

/// The artifact type of the manifest's own, where it isn't empty.
pub fn own_type(artifact: &Option<Words>) -> Option<&str>
    ensures { option_map (λ text. text.now) result ≡ own_type artifact.now }
{
    match artifact {
        Some(own) if !own.as_str().is_empty() => Some(own.as_str()),
        _ => None,
    }
}

/// The media of the first descriptor, which is the config.
pub fn config_media(references: &[Descriptor]) -> Option<&str>
    ensures { option_map (λ text. text.now) result ≡ config_media references.now }
{
    match references.first() {
        Some(config) => Some(config.media.as_str()),
        None => None,
    }
}
