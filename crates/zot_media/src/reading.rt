//! What a manifest says.
ghost use Rattle.std.specs.Prelude.{◌≡◌, IfOk, option_map};
ghost use Rattle.zot_media.specs.Manifest.{empty_reading};
ghost use Rattle.zot_media.specs.References.{artifact_type, needed, refers, subject_digest};

use crate::annotation_list::AnnotationList;
use crate::copies::{copy_subject, copy_words};
use crate::descriptor::Descriptor;
use crate::descriptor_list::DescriptorList;
use crate::referring::{config_media, has_digest, needed_digests, own_type};
use std::alloc::{AllocError, Global};
use zot_digest::{Digest, Words};

/// What a manifest says (OCI Image Specification 1.1, "Image Manifest" and "Image Index").
#[derive(Drop)]
pub struct Reading {
    /// The config of an image and then its layers; none of an index.
    pub references: DescriptorList,
    /// The manifests of an index; none of an image.
    pub children: DescriptorList,
    /// The manifest that this one says something of.
    pub subject: Option<Descriptor>,
    /// The type of an artifact, which may be empty.
    pub artifact: Option<Words>,
    /// The annotations, in byte order of their keys.
    pub annotations: AnnotationList,
}

impl Reading {
    /// The reading of a stored manifest whose bytes have none. Takes no memory.
    pub fn empty(alloc: Global) -> Self
        ensures { result ≡ empty_reading }
    {
        Reading {
            references: DescriptorList::new(Vec::new(alloc)),
            children: DescriptorList::new(Vec::new(alloc)),
            subject: None,
            artifact: None,
            annotations: AnnotationList::new(Vec::new(alloc)),
        }
    }

    /// The digests that have to be there before the manifest is: those of the config and of the layers that aren't external, in their order. It fails only where memory does.
    #[tactic(auto, unfolding(crate::specs::References::needed))]
    pub fn needed(&self, alloc: Global) -> Result<Vec<Digest>, AllocError>
        ensures { IfOk result (λ digests. digests.items ≡ needed self.now) }
    {
        needed_digests(alloc, self.references.as_slice())
    }

    /// Whether the manifest refers to the digest: by its config, any layer or a child. Takes no memory.
    #[tactic(auto, unfolding(crate::specs::References::refers))]
    pub fn refers(&self, digest: &Digest) -> bool
        ensures { result ≡ refers self.now digest.now }
    {
        has_digest(self.references.as_slice(), digest)
            || has_digest(self.children.as_slice(), digest)
    }

    /// The digest of the manifest that this one says something of. Takes no memory.
    pub fn subject_digest(&self) -> Option<Digest>
        ensures { result ≡ subject_digest self.now.subject }
    {
        match &self.subject {
            Some(subject) => Some(subject.digest),
            None => None,
        }
    }

    /// The artifact type for a list of referrers: the manifest's own where it isn't empty, else the media of the config, if it has one. Takes no memory.
    #[tactic(auto, unfolding(crate::specs::References::artifact_type))]
    pub fn artifact_type(&self) -> Option<&str>
        ensures { option_map (λ text. text.now) result ≡ artifact_type self.now }
    {
        match own_type(&self.artifact) {
            Some(own) => Some(own),
            None => config_media(self.references.as_slice()),
        }
    }

    /// A second reading that is equal to it. It fails only where memory does.
    pub fn copy(&self, alloc: Global) -> Result<Reading, AllocError>
        ensures { IfOk result (λ copy. copy ≡ self.now) }
    {
        let references = self.references.copy(alloc)?;
        let children = self.children.copy(alloc)?;
        let subject = copy_subject(alloc, &self.subject)?;
        let artifact = copy_words(alloc, &self.artifact)?;
        let annotations = self.annotations.copy(alloc)?;
        Ok(Reading {
            references,
            children,
            subject,
            artifact,
            annotations,
        })
    }
}
