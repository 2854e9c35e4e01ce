//! The media of manifests.
ghost use Rattle.std.specs.Prelude.{◌≡◌};
ghost use Rattle.zot_media.specs.Media.{media_named, media_text};

/// The media of the manifests that are accepted (OCI Image Specification 1.1, "Media Types"; Docker's image manifest, version 2, schema 2).
#[derive(Clone, Copy, Debug, PartialEq, Eq)]
pub enum Media {
    /// An image manifest.
    Image,
    /// An image index.
    Index,
    /// A Docker image manifest.
    DockerImage,
    /// A Docker manifest list.
    DockerList,
}

impl Media {
    /// The text of these media. Takes no memory.
    #[tactic(auto, unfolding(crate::specs::Media::media_text))]
    pub fn text(&self) -> &'static str
        ensures { result.now ≡ media_text self.now }
    {
        match self {
            Media::Image => "application/vnd.oci.image.manifest.v1+json",
            Media::Index => "application/vnd.oci.image.index.v1+json",
            Media::DockerImage => "application/vnd.docker.distribution.manifest.v2+json",
            Media::DockerList => "application/vnd.docker.distribution.manifest.list.v2+json",
        }
    }
}

/// The media of a text, or none where it is that of no accepted media. Takes no memory.
pub fn media_of(text: &str) -> Option<Media>
    ensures { result ≡ media_named text.now }
{
    if text == Media::Image.text() {
        Some(Media::Image)
    } else if text == Media::Index.text() {
        Some(Media::Index)
    } else if text == Media::DockerImage.text() {
        Some(Media::DockerImage)
    } else if text == Media::DockerList.text() {
        Some(Media::DockerList)
    } else {
        None
    }
}
