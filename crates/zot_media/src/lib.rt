//! The media of manifests, how a request refers to one, and what a manifest's bytes say.
//!
//! `media_of("application/vnd.oci.image.index.v1+json")` is `Some(Media::Index)`, and `media_in(alloc, bytes)` the
//! media that a manifest's own field names. `read_manifest(alloc, Media::Index, bytes)` is exactly what the bytes say as an
//! index, and `Bad` exactly where they are none.
#![tactic(auto)]

mod annotation;
mod annotation_list;
mod annotations;
mod copies;
mod descriptor;
mod descriptor_list;
mod descriptors;
mod document;
mod fields;
mod kind;
mod laws;
mod manifest;
mod media;
mod media_error;
mod reading;
mod reference;
mod referring;

pub use crate::annotation::Annotation;
pub use crate::annotation_list::AnnotationList;
pub use crate::descriptor::Descriptor;
pub use crate::descriptor_list::DescriptorList;
pub use crate::descriptors::read_descriptor;
pub use crate::document::media_in;
pub use crate::fields::{read_document, text_of, whole_of};
pub use crate::kind::Kind;
pub use crate::laws::{annotations_ascend, only_texts_are_read, text_is_read};
pub use crate::manifest::{read_manifest, read_stored};
pub use crate::media::{Media, media_of};
pub use crate::media_error::MediaError;
pub use crate::reading::Reading;
pub use crate::reference::Reference;
